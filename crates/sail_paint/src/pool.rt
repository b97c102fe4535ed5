// A pool of chunks: those that hang from cells that meet a prefix are painted again, and the number of each chunk is
// stamped into the cell that it hangs from.
ghost use Rattle.std.specs.Prelude.{◌≡◌, ◌-◌};
ghost use Rattle.chain.specs.Words.{routes_of_words};
ghost use Rattle.sail.specs.Level.{part_of, entry};
ghost use Rattle.sail_paint.specs.Paint.{overpainted, stamped, stands_for, stale_of, stale_in, ChunkOf, Pool, Stamps};

use crate::part::paint_part;
use crate::place::{meets, owner_at, stands_for};
use chain::place::shifted;

// Chunk c, whose owner is o, as the routes ask, where it is in use and the cell that it hangs from meets the prefix. The
// chunk's cells are of level p. It hangs from a cell of level l, whose places lie in chunks of 2^e with the owners `up`.
pub fn paint_chunk(
    ws: &[u64],
    par: &[u16],
    addr: u32,
    len: u32,
    l: u32,
    p: u32,
    up: &[u32],
    e: u32,
    o: usize,
    cells: &mut [u16],
    c: usize,
)
    requires { ChunkOf ws.now par.now len l p up.now e o cells.old c }
    ensures { cells.new ≡ overpainted (routes_of_words ws.now) p (stale_of addr len l (p - l) (stands_for e
        up.now) c o) (part_of (λ _. o) (p - l) (stands_for e up.now)) cells.old }
{
    if o == 0 {
        return;
    }
    let i = stands_for(up, e, o - 1);
    if !meets(addr, len, l, i) {
        return;
    }
    let d = p - l;
    let a = shifted(c as u64, 12, d) as usize;
    let end = a + shifted(1, 1, d) as usize;
    let base = shifted(i, l, d) as usize;
    paint_part(ws, par, l, i, p, base, cells, a, end);
}

// The same for each chunk of a pool.
pub fn paint_pool(
    ws: &[u64],
    par: &[u16],
    addr: u32,
    len: u32,
    l: u32,
    p: u32,
    up: &[u32],
    e: u32,
    own: &[u32],
    cells: &mut [u16],
)
    requires { Pool ws.now par.now len l p up.now e own.now cells.old }
    ensures { cells.new ≡ overpainted (routes_of_words ws.now) p (stale_in addr len l (p - l) (stands_for e
        up.now) (entry own.now)) (part_of (entry own.now) (p - l) (stands_for e up.now))
        cells.old }
{
    for c in 0..own.len() {
        let o = owner_at(own, c);
        paint_chunk(ws, par, addr, len, l, p, up, e, o, cells, c);
    }
}

// The number of each chunk in use, from 1, into the cell that it hangs from.
pub fn stamp(cells: &mut [u16], own: &[u32])
    requires { Stamps own.now cells.old }
    ensures { cells.new ≡ stamped own.now cells.old }
{
    for c in 0..own.len() {
        let o = owner_at(own, c);
        let number = (c + 1) as u16;
        if o != 0 {
            cells[o - 1] = number;
        }
    }
}
