// Routes, what is wrong with one by itself, and the prefix that an address and a length mean.
#![tactic(auto)]

pub mod found;
pub mod input;
pub mod prefix;

// A route: the prefix of `len` bits of `addr`, and the hop that it leads to. `mark` is 1 for a network on our own port,
// an attached one, and 0 for one behind a neighbour.
#[derive(Clone, Copy)]
pub struct Route {
    pub addr: u32,
    pub len: u8,
    pub mark: u8,
    pub hop: u16,
}
