// The counts of a table: one route more or less in them.
#![tactic(auto)]

pub mod tick;
