// The console's calls on cell lists, which need no table. Each reads its arguments from a line and writes its answer.
#![tactic(auto)]

pub mod checking;
pub mod mends;
