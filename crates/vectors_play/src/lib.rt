// A player of scripts on a table: each step is a call, an edit or a look at what is lent, and prints what it gives. The programs of
// worked cases that change tables are scripts for it.
#![tactic(auto)]

pub mod lend;
mod play;
mod said;
mod turn;
