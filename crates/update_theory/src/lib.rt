// What a message of withdrawn and announced prefixes does, entry by entry: to whatever it is dealt to, and to a table. This crate
// has definitions and proofs, and no code.
#![tactic(auto)]
