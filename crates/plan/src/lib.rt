// Blocks of cells, planned by painting routes in list order.
#![tactic(auto)]

pub mod paint;
pub mod under;
