// How many long routes a cell holds, and what is stored of it. This crate has definitions and proofs, and no code.
#![tactic(auto)]
