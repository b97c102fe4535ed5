// The check of a record input, and a route read back out of one.
#![tactic(auto)]

pub mod input;
