// What all calls of the console share: how arguments are read and answers written, lent lists, and the help.
#![tactic(auto)]

pub mod answers;
pub mod arguments;
pub mod help;
pub mod places;
