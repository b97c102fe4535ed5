// The chunks of a SAIL table opened and closed, and the cells of an address, which tell where.
#![tactic(auto)]

pub mod chunks;
pub mod opening;
pub mod trail;
