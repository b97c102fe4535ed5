// Where chunks hang, and which cells meet a prefix.
ghost use Rattle.std.specs.Prelude.{◌≡◌, ◌≤◌, ◌<◌, length, get_or};
ghost use Rattle.sail_paint.specs.Stale.{meets};
ghost use Rattle.sail_paint.specs.Paint.{stands_for, Above};

use sail::place::cell_place;

// The owner of chunk c as it is read everywhere: 1 + the place of the cell that the chunk hangs from, 0 where it is free.
pub fn owner_at(own: &[u32], c: usize) -> usize
    requires { c < length own.now }
    ensures { (result ≡ get_or own.now c 0) × (result < 4294967296) }
{
    own[c] as usize
}

// The cell that place q of a level stands for. Its places lie in chunks of 2^e, whose owners are `up`; where e is 0 there
// are no such chunks, and a place is a cell.
pub fn stands_for(up: &[u32], e: u32, q: usize) -> u64
    requires { Above up.now e q }
    ensures { result ≡ stands_for e up.now q }
{
    if e == 0 {
        return q as u64;
    }
    cell_place(owner_at(up, q >> e), e, q) as u64
}

// Whether cell i of level p lies under the prefix of len bits of addr, or holds it.
pub fn meets(addr: u32, len: u32, p: u32, i: u64) -> bool
    requires { (len ≤ 32) × (p ≤ 32) }
    ensures { result ≡ meets addr len p i }
{
    let a = addr as u64;
    if len <= p {
        return i >> (p - len) == a >> (32 - len);
    }
    a >> (32 - p) == i
}
