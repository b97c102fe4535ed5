// What the calls on a SAIL table answer and leave, and the theorems on them. This crate has definitions and proofs, and no code: the
// calls themselves are written and proved in the crates above it.
#![tactic(auto)]
