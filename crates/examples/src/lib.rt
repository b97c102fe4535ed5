// The starred examples of document 01 as one table, proved once, and list A as a table that meets what the demands ask. This crate has
// definitions and proofs, and no code.
#![tactic(auto)]
