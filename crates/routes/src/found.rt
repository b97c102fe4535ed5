// What a lookup finds that counts its reads.

// The hop of the longest route that covers the address, or none; and how many cells or nodes were read.
#[derive(Clone, Copy, Debug, PartialEq, Eq)]
pub struct Found {
    pub hop: Option<u16>,
    pub reads: u32,
}
