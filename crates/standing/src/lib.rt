// What routes say of a cell, and what stands in a list of routes. This crate has definitions and proofs, and no code.
#![tactic(auto)]
