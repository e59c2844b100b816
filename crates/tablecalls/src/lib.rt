// The console's calls on the table of soundings that it holds: what is held, what is asked of it, what is shown, and
// its file.
#![tactic(auto)]

pub mod asking;
pub mod desks;
pub mod files;
pub mod held;
pub mod items;
pub mod laying;
pub mod showing;
