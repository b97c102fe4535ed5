// Which chunks an announcement opens, and their owners.
ghost use Rattle.std.specs.Prelude.{◌≡◌, cond, ◌&&◌, ◌<◌, ltb, leb};
ghost use Rattle.routes.specs.Record.{routes_of};
ghost use Rattle.sail_theory.specs.Calls.{open_at};
ghost use Rattle.sail.specs.Level.{chunks_of, level1, level2};
ghost use Rattle.sail_chunks.specs.Trail.{Serving};
ghost use Rattle.sail_chunks.specs.ToOpen.{ChunkForReady, Openable, Opens, no_opening};

use crate::chunks::set_owner;
use crate::trail::follow;
use routes::Route;
use sail::geometry::Geometry;
use sail::place::second_place;
use sail::table::Table;

// Whether a second and whether a third chunk is to be opened; and the second chunk that serves the prefix, from 0, where one
// is there.
// Stays: two flags and a number. An Option in place of `second` and `chunk` would not tell a second chunk that is to be opened from
// one that the prefix does not need.
#[derive(Clone, Copy)]
pub struct Opening {
    pub second: bool,
    pub third: bool,
    pub chunk: usize,
}

// Nothing is to be opened.
pub fn nothing() -> Opening
    ensures { result ≡ no_opening }
{
    Opening {
        second: false,
        third: false,
        chunk: 0,
    }
}

// Whether a prefix longer than p has a leaf in its cell of level p.
fn leaf_under(v: u16, p: u32, len: u32) -> bool
    ensures { result ≡ (ltb p len && leb 32768 v) }
{
    if p < len {
        return 32768 <= v;
    }
    false
}

// The chunk that is to be opened, or the one that is there.
fn chunk_for(opens: bool, new: usize, c: usize) -> usize
    requires { ChunkForReady new c }
    ensures { (result ≡ cond opens new c) × (result < 65536) }
{
    if opens {
        return new;
    }
    c
}

// What is to be opened for the prefix of len bits of addr: where it is longer than a level and has a leaf there.
pub fn to_open(
    t: Table,
    list: &[u8],
    first: &[u16],
    second: &[u16],
    own2: &[u32],
    own3: &[u32],
    addr: u32,
    len: u8,
) -> Opening
    requires { Serving t.geometry (routes_of list.now t.count) first.now second.now own2.now own3.now }
    ensures { Opens t.geometry (routes_of list.now t.count) own2.now addr len result }
{
    let g = t.geometry;
    let l = u32::from(len);
    let v = follow(t, list, first, second, own2, own3, addr);
    let two = leaf_under(v.first, g.p1, l);
    let three = leaf_under(v.second, g.p2, l);
    Opening {
        second: two,
        third: three,
        chunk: (v.first - 1) as usize,
    }
}

// The chunks that are to be opened for the route are opened: c2 of the second pool and c3 of the third, which the caller found
// free.
pub fn open(
    g: Geometry,
    r: Route,
    o: Opening,
    c2: usize,
    c3: usize,
    own2: &mut [u32],
    own3: &mut [u32],
)
    requires { Openable g r o c2 c3 own2.old own3.old }
    ensures second { own2.new ≡ open_at (level1 g) own2.old c2 r }
    ensures third { own3.new
        ≡ open_at (level2 g (chunks_of (open_at (level1 g) own2.old c2 r))) own3.old c3 r }
{
    let addr = r.addr;
    let c = chunk_for(o.second, c2, o.chunk);
    let q = second_place(g, c + 1, addr);
    set_owner(own2, o.second, c2, bits::slot(g.p1, addr) + 1);
    set_owner(own3, o.third, c3, q as u32 + 1);
}
