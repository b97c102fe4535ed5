// The bit and the cell of a prefix of at most 16 bits.
ghost use Rattle.std.specs.Prelude.{◌≡◌, ◌≤◌, ◌<◌, length};
ghost use Rattle.bits.specs.Slot.{slot};
ghost use Rattle.basic.specs.Maps.{map_place, is_set_at, MapSizes};
ghost use Rattle.basic.specs.Walk.{mapped, as_met};

// The place of the first l bits of an address: those of all shorter prefixes come before it.
pub fn map_place(l: u32, addr: u32) -> usize
    requires { l ≤ 16 }
    ensures { (result ≡ map_place l (slot l addr)) × (result < 131071) }
{
    ((1usize << l) - 1) + (bits::slot(l, addr) as usize)
}

// Whether bit i is set.
fn is_set(bits: &[u8], i: usize) -> bool
    requires { (length bits.now ≡ 16384) × (i < 131071) }
    ensures { result ≡ is_set_at bits.now i }
{
    bits::is_set(u32::from(bits[i / 8]), (i % 8) as u32)
}

// The hop in the cell of the first l bits of an address, where their bit is set.
pub fn mapped(bits: &[u8], cells: &[u16], addr: u32, l: u32) -> Option<u16>
    requires { MapSizes (length bits.now) (length cells.now) × (l ≤ 16) }
    ensures { as_met result ≡ mapped bits.now cells.now addr l }
{
    let i = map_place(l, addr);
    if is_set(bits, i) {
        Some(cells[i])
    } else {
        None
    }
}
