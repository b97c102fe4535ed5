// Lent arrays written over: a range with one number, or all of one with another array and zeros after it.
#![tactic(auto)]

pub mod fill;
