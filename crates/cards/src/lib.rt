// The calls as C sees them: slices as pointer and length, and each answer packed into one number.
#![tactic(auto)]

pub mod broadcasts;
pub mod forwards;
pub mod headers;
pub mod images;
pub mod inputs;
pub mod lookups;
pub mod maps;
pub mod messages;
pub mod pairs;
pub mod repairs;
pub mod tables;
