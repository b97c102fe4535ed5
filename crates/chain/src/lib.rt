// Records as words of 64 bits, and the chain of covering routes that answers for a cell.
#![tactic(auto)]

pub mod cover;
pub mod list;
pub mod place;
pub mod words;
