// SAIL tables that are read: geometry, state, what is lent, and places in a pool.
#![tactic(auto)]

pub mod arrays;
pub mod geometry;
pub mod place;
pub mod table;
