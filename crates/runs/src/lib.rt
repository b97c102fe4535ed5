// Parts of a record input: the run under a prefix, and the tally of its lengths.
#![tactic(auto)]

pub mod run;
pub mod tally;
