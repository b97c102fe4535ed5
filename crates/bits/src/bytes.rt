// The parts of a number by its bytes: divided by one of these it leaves what stands above so many bytes, and the
// remainder is what they hold.
pub const ONE: u64 = 256;

pub const TWO: u64 = 65536;

pub const THREE: u64 = 16777216;

pub const FOUR: u64 = 4294967296;
