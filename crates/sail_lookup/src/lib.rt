// Lookup: the walk from a first cell down to a leaf, in any table.
#![tactic(auto)]

ghost use Rattle.std.specs.Prelude.{◌≡◌, ◌≤◌, length, slice_index};
ghost use Rattle.sail.specs.Arrays.{lent_by};
ghost use Rattle.sail.specs.Sizes.{Sized};
ghost use Rattle.sail.specs.Pool.{Chunk};
ghost use Rattle.sail.specs.Walk.{cell_place, one_of, leaf_said, found_said};
ghost use Rattle.sail.specs.Contract.{MeetsLookup};
ghost use Rattle.sail.specs.Word.{Word, FoundIn, said_of};
ghost use Rattle.sail_lookup.specs.Told.{told_by};

use refusals::Refusal;
use routes::found::Found;
use sail::arrays::Arrays;
use sail::geometry::Geometry;
use sail::place::cell_place;
use sail::table::Table;
use sail_sizes::check_sizes;

// What a leaf says that is read as the n-th cell, as a word.
pub fn leaf(v: u16, n: u32) -> u32
    requires { (32768 ≤ v) × (n ≤ 3) }
    ensures { Word result (leaf_said n v) }
{
    n * 256 + ((v - 32768) as u32) * 65536
}

// Whether a cell names one of a pool's chunks. One comparison does: 0 wraps to the largest number.
pub fn opens(v: u16, chunks: usize) -> bool
    ensures { result ≡ one_of chunks v }
{
    (v as usize).wrapping_sub(1) < chunks
}

// The cell in chunk c, of a pool of so many chunks of 2^k cells, that serves cell i of its level.
pub fn cell(pool: &[u16], chunks: usize, c: u16, k: u32, i: u32) -> u16
    requires { Chunk (length pool.now) chunks c k }
    ensures { result ≡ slice_index pool.now (cell_place k c i) }
{
    let at = cell_place(c as usize, k, i as usize);
    pool[at]
}

// The walk, where the sizes are right. It answers with a word: an enum would be written to memory and read again.
pub fn walk(g: Geometry, a: Arrays, addr: u32) -> u32
    requires { Sized g (lent_by a) }
    ensures { Word result (found_said g (lent_by a.entry) addr) }
{
    let p1 = g.p1;
    let p2 = g.p2;
    let v1 = a.first[(addr >> (32 - p1)) as usize];
    if 32768 <= v1 {
        return leaf(v1, 1);
    }
    if !opens(v1, a.own2.len()) {
        return 5;
    }
    let v2 = cell(a.second, a.own2.len(), v1, p2 - p1, addr >> (32 - p2));
    if 32768 <= v2 {
        return leaf(v2, 2);
    }
    if !opens(v2, a.own3.len()) {
        return 5;
    }
    let v3 = cell(a.third, a.own3.len(), v2, 32 - p2, addr);
    if 32768 <= v3 {
        return leaf(v3, 3);
    }
    5
}

// What a word says: what was found, or the number of a refusal.
pub fn said(w: u32) -> Result<Found, u8>
    ensures { told_by result ≡ said_of w }
{
    if w % 256 != 0 {
        return Err((w % 256) as u8);
    }
    let reads = w / 256 % 256;
    let hop = (w / 65536) as u16;
    if hop == 0 {
        return Ok(Found { hop: None, reads });
    }
    Ok(Found {
        hop: Some(hop),
        reads,
    })
}

// What a walk's word says: what was found, or that the walk broke off.
pub fn found_in(w: u32) -> Option<Found>
    ensures { FoundIn w result }
{
    match said(w) {
        Ok(found) => Some(found),
        Err(_) => None,
    }
}

// The hop of the longest route that covers the address, with the count of cells read.
pub fn lookup(t: Table, a: Arrays, addr: u32) -> Result<Found, Refusal>
    ensures { MeetsLookup t (lent_by a.entry) addr result }
{
    check_sizes(t, a)?;
    found_in(walk(t.geometry, a, addr)).ok_or(Refusal::Unsound)
}
