// The prefix that is meant by an address and a length: suppliers send 10.1.2.3/24 for 10.1.2.0/24.
ghost use Rattle.std.specs.Prelude.{◌≡◌};
ghost use Rattle.bits.specs.Slot.{cut};

// The address with the bits after the length cleared. After a length over 32 there are none; who calls refuses that
// length.
pub fn clear_after(addr: u32, len: u8) -> u32
    ensures { result ≡ cut len addr }
{
    let n = u32::from(len);
    if 32 < n {
        return addr;
    }
    bits::cut(n, addr)
}
