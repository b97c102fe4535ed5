// Many lookups at once: addresses follow each other through the three levels of a table.
#![tactic(auto)]

pub mod flow;
pub mod pass;
