// A party's change on the real arrays of a box: laws for the functions that paint its cells. This crate has proofs, and no code.
#![tactic(auto)]
