// The test of cells: blocks and chunks of them beside the routes. The same functions serve every level and every chunk
// size. Scratch for the plan of a block is lent to them.
#![tactic(auto)]

ghost use Rattle.std.specs.Prelude.{◌≡◌, ◌+◌, ◌*◌, ◌^◌, ◌≤◌, ◌<◌, length, get_or};
ghost use Rattle.bits.specs.Tab.{Tells};
ghost use Rattle.chain.specs.Words.{routes_of_words};
ghost use Rattle.plan_test.specs.Part.{Right};
ghost use Rattle.sail.specs.Geometry.{Power};
ghost use Rattle.sail_cells_test.specs.Pool.{part_at, OwnedRight, OwnedChunk, OwnedPool, FreeIsZero, FreeAll, Chunked};
ghost use Rattle.sail_cells_test.specs.Pool.{Blocked, FirstTestReady, OwnerCellReady, OwnerCell, OwnedReady, Pooled};

use buffers_test::zeros::zeros;
use chain::place::shifted;
use plan_test::under::right_under;
use sail::place::cell_place;

// How many cells a block has whose places take d bits.
fn size(d: u32) -> usize
    requires { d ≤ 10 }
    ensures { Power result d 1024 }
{
    1usize << d
}

// Whether the 2^d cells from place a on are as the routes ask for the cells of level p that lie in cell i of level p - d.
// The cell at place a has the owner number o; `want` is room for the plan.
pub fn block_ok(
    ws: &[u64],
    par: &[u16],
    p: u32,
    d: u32,
    i: u64,
    cells: &[u16],
    a: usize,
    o: usize,
    below: &[u32],
    want: &mut [u16],
) -> bool
    requires { Blocked ws.now par.now p d i cells.now a o want.old }
    ensures { Tells result (Right (routes_of_words ws.now) p (i * 2 ^ d) (part_at cells.now a (2 ^ d)) below.now o (2 ^ d)) }
{
    let n = size(d);
    let e = a + n;
    let base = shifted(i, p - d, d) as usize;
    let part = &cells[a..e];
    right_under(ws, par, p - d, i, p, base, part, o, &mut want[..n], below)
}

// Whether the first cells, which are those of level p, are as the routes ask. They are gone through in blocks of 1,024;
// the first of them has the owner number o.
pub fn first_ok(
    ws: &[u64],
    par: &[u16],
    p: u32,
    first: &[u16],
    o: usize,
    below: &[u32],
    want: &mut [u16],
) -> bool
    requires { FirstTestReady ws.now par.now p first.now o want.old }
    ensures { Tells result (Right (routes_of_words ws.now) p 0 first.now below.now o (length first.now)) }
{
    for b in 0..first.len() / 1024 {
        let a = b * 1024;
        if !block_ok(ws, par, p, 10, b as u64, first, a, o + a, below, want) {
            return false;
        }
    }
    true
}

// Where chunk c begins.
fn start(c: usize, d: u32) -> usize
    requires { (c < 4096) × (d ≤ 10) }
    ensures { (result ≡ c * 2 ^ d) × (result < 4194304) }
{
    c << d
}

// Whether the cell at place q of the pool above names chunk c, and the chunk is as the routes ask for the cells of level p
// that lie in cell i of level p - d. The chunk's first cell has the owner number o.
pub fn owned_ok(
    ws: &[u64],
    par: &[u16],
    p: u32,
    d: u32,
    above: &[u16],
    q: usize,
    i: u64,
    cells: &[u16],
    c: usize,
    o: usize,
    below: &[u32],
    want: &mut [u16],
) -> bool
    requires { OwnedReady ws.now par.now p d above.now q i cells.now c o want.old }
    ensures { Tells result (OwnedRight (routes_of_words ws.now) p d above.now cells.now below.now c o q i) }
{
    if usize::from(above[q]) != c + 1 {
        return false;
    }
    block_ok(ws, par, p, d, i, cells, start(c, d), o, below, want)
}

// The cell that place q of a pool of n places stands for, and none where it is no place or its chunk is free. The pool's
// chunks have 2^e cells and the owners `up`.
fn owner_cell(up: &[u32], e: u32, n: usize, q: usize) -> Option<u64>
    requires { OwnerCellReady up.now e n }
    ensures { OwnerCell up.now e n q result }
{
    if n <= q {
        return None;
    }
    let k = q >> e;
    let x = up[k] as usize;
    if x == 0 {
        return None;
    }
    Some(cell_place(x, e, q) as u64)
}

// Whether chunk c of a pool is free, or hangs from the pool above and is right. The cells of the pool above lie in chunks of
// 2^e, whose owners are `up`.
fn chunk_ok(
    ws: &[u64],
    par: &[u16],
    p: u32,
    d: u32,
    up: &[u32],
    e: u32,
    above: &[u16],
    cells: &[u16],
    own: &[u32],
    c: usize,
    below: &[u32],
    want: &mut [u16],
) -> bool
    requires pooled { Pooled ws.now par.now p d up.now e above.now cells.now own.now want.old }
    requires c_in_bounds { c < length own.now }
    ensures { Tells result (OwnedChunk (routes_of_words ws.now) p d up.now e above.now cells.now
        below.now c (get_or own.now c 0)) }
{
    let a = start(c, d);
    let o = own[c] as usize;
    if o == 0 {
        return true;
    }
    let q = o - 1;
    match owner_cell(up, e, above.len(), q) {
        Some(i) => owned_ok(ws, par, p, d, above, q, i, cells, c, 1 + a, below, want),
        None => false,
    }
}

// Whether each chunk in use of a pool is right. The cells of free chunks are not read.
pub fn owned_all(
    ws: &[u64],
    par: &[u16],
    p: u32,
    d: u32,
    up: &[u32],
    e: u32,
    above: &[u16],
    cells: &[u16],
    own: &[u32],
    below: &[u32],
    want: &mut [u16],
) -> bool
    requires { Pooled ws.now par.now p d up.now e above.now cells.now own.now want.old }
    ensures { Tells result (OwnedPool (routes_of_words ws.now) p d up.now e above.now own.now
        cells.now below.now) }
{
    for c in 0..own.len() {
        if !chunk_ok(ws, par, p, d, up, e, above, cells, own, c, below, want) {
            return false;
        }
    }
    true
}

// Whether chunk c of a pool of chunks of 2^d cells is in use, or zero.
fn free_chunk(d: u32, cells: &[u16], own: &[u32], c: usize) -> bool
    requires chunked { Chunked d own.now cells.now }
    requires c_in_bounds { c < length own.now }
    ensures { Tells result (FreeIsZero d cells.now c (get_or own.now c 0)) }
{
    if own[c] != 0 {
        return true;
    }
    let a = start(c, d);
    let e = a + size(d);
    zeros(cells, a, e)
}

// Whether each free chunk of a pool is zero. The cells of chunks in use are not read.
pub fn free_all(d: u32, cells: &[u16], own: &[u32]) -> bool
    requires { Chunked d own.now cells.now }
    ensures { Tells result (FreeAll d own.now cells.now) }
{
    for c in 0..own.len() {
        if !free_chunk(d, cells, own, c) {
            return false;
        }
    }
    true
}
