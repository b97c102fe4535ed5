// What the programs of worked cases share: list A, and lists of numbers as they are printed.
#![tactic(auto)]

pub mod list;
pub mod onward;
pub mod shown;
