// Whether a change of a table is refused; and where it is not, what was found that the change rests on.
#![tactic(auto)]

pub mod announce;
pub mod withdraw;
