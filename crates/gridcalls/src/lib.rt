// The console's calls that need no table: those of document 01, and a sweep. Each reads its arguments from a line and
// writes its answer.
#![tactic(auto)]

pub mod calls;
pub mod lists;
pub mod sweeping;
