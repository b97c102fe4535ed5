// Addresses one level on: one by itself, and three in a turn.
#![tactic(auto)]

pub mod turn;
pub mod word;
