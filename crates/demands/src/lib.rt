// The three demands as theorems, and that no statement of a call leaves a second answer. This crate has no code: its theorems gather what the
// crates below it show, in the order of the demands.
#![tactic(auto)]
