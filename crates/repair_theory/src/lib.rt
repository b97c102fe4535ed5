// What a repair of a SAIL table keeps, says and leaves, and the theorems on it. This crate has definitions and proofs, and no
// code: the call itself is written and proved in crate `repair`.
#![tactic(auto)]
