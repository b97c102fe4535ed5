// The route fields of BGP messages (RFC 4271): prefixes as a length byte and as many bytes as the length needs, end to end.
#![tactic(auto)]

pub mod check;
pub mod entry;
pub mod message;
pub mod write;
