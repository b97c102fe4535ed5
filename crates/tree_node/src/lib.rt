// The nodes of an image as the records of a list ask for them: the run of a node, its bits, what is written of it, and how many nodes there are.
#![tactic(auto)]

pub mod count;
pub mod put;
pub mod run;
