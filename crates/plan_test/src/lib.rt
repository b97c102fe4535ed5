// A lent part of cells, judged beside its plan.
#![tactic(auto)]

pub mod part;
pub mod under;
