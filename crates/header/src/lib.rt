// The header step of a router, all but the lookup in it: an IPv4 header is checked, its destination read, and when the lookup
// found a hop, its time to live is lowered and its checksum mended.
#![tactic(auto)]

pub mod halves;
pub mod packet;
