// Where a cell of a level stands in a pool of chunks, and which cell a place stands for.
ghost use Rattle.std.specs.Prelude.{◌≡◌, ◌<◌};
ghost use Rattle.bits.specs.Slot.{slot};
ghost use Rattle.sail.specs.Geometry.{bits2};
ghost use Rattle.sail.specs.Pool.{Numbered, SecondChunk};
ghost use Rattle.sail.specs.Walk.{cell_place};

use crate::geometry::Geometry;

// The place, in a pool of chunks of 2^d cells, of the cell in chunk c, counted from 1, that serves cell i of its level. It is
// also the way back: where c is the owner of the chunk that place i lies in, it is the cell that place i stands for.
pub fn cell_place(c: usize, d: u32, i: usize) -> usize
    requires { Numbered c d }
    ensures { (result ≡ cell_place d c i) × (result < 281474976710656) }
{
    ((c - 1) << d) + i % (1 << d)
}

// The place of an address's second cell, in second chunk c, counted from 1.
pub fn second_place(g: Geometry, c: usize, addr: u32) -> usize
    requires { SecondChunk g c }
    ensures { (result ≡ cell_place (bits2 g) c (slot g.p2 addr)) × (result < 67108864) }
{
    cell_place(c, g.p2 - g.p1, bits::slot(g.p2, addr) as usize)
}
