// The soundness test of a box of two.
#![tactic(auto)]

pub mod parts;
pub mod test;
