// The soundness test of a SAIL table, and the report.
#![tactic(auto)]

pub mod report;
pub mod seen;
pub mod test;
