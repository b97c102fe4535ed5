// The text that is printed of a table and of a refusal, written into a lent buffer from its start. Each call answers the place
// after its text.
#![tactic(auto)]

pub mod line;
