// A table loaded from a record input.
#![tactic(auto)]

pub mod load;
