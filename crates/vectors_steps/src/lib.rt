// What a script makes of a table's calls: the steps that it asks for or draws, what they say, and where it stands after each.
#![tactic(auto)]

pub mod draws;
pub mod said;
pub mod step;
pub mod world;
