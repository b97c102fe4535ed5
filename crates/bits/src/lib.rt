// Bits of 32-bit numbers: the first bits of an address, and ones counted below a bit. And numbers of other widths: their
// bytes, and numbers made wider or narrower.
#![tactic(auto)]

ghost use Rattle.std.specs.Prelude.{◌≡◌, ◌%◌, ◌^◌, ◌≤◌, ◌<◌, eqb};
ghost use Rattle.std.specs.Int.Count.{ones};
ghost use Rattle.bits.specs.Slot.{slot, cut, mask};
ghost use Rattle.bits.specs.Bit.{bit_at};

pub mod bytes;
pub mod narrow;
pub mod number;
pub mod widen;

// The first p bits of an address, as a number. Level 0 is set apart: no number is shifted by its whole width.
pub fn slot(p: u32, addr: u32) -> u32
    requires { p ≤ 32 }
    ensures { result ≡ slot p addr }
{
    if p == 0 {
        return 0;
    }
    addr >> (32 - p)
}

// The mask of a length: so many ones from the top, and zeros after them. Length 0 is set apart: no number is shifted by
// its whole width.
pub fn mask(len: u32) -> u32
    requires { len ≤ 32 }
    ensures { result ≡ mask len }
{
    if len == 0 {
        return 0;
    }
    0xFFFF_FFFF << (32 - len)
}

// An address with every bit after the first len zero.
pub fn cut(len: u32, addr: u32) -> u32
    requires { len ≤ 32 }
    ensures { result ≡ cut len addr }
{
    addr & mask(len)
}

// How many bits of a word below a bit are set.
pub fn ones_below(word: u32, bit: u32) -> u32
    requires { bit < 32 }
    ensures { (result ≡ ones (word % 2 ^ bit)) × (result ≤ bit) }
{
    u32::count_ones(word & ((1 << bit) - 1))
}

// Whether a bit of a word is set.
pub fn is_set(word: u32, k: u32) -> bool
    requires { k < 32 }
    ensures { result ≡ eqb (bit_at word k) 1 }
{
    (word >> k) & 1 == 1
}
