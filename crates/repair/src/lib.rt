// A table put right after a memory fault.
#![tactic(auto)]

pub mod repair;
