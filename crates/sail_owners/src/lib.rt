// The owners that the routes of an input ask for.
#![tactic(auto)]

pub mod owners;
