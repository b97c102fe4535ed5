// The owners of a load, in one pass over its records. The routes ascend, and so do the places that chunks hang from: a
// route's chunk is the last one opened, or the next that is free. Chunks that another table has stay as they are.
ghost use Rattle.std.specs.Prelude.{◌≡◌, ◌≤◌, length};
ghost use Rattle.bits.specs.Tab.{Tells};
ghost use Rattle.sail_theory.specs.Render.{find};
ghost use Rattle.sail_theory.specs.Calls.{input_routes, owners_after};
ghost use Rattle.sail_owners.specs.Owners.{owners, Past, LastIs, MayOwn, HasOwner, OpenForReady, Opened, owners_from, Between, Ownable};

use bits::slot;
use records::record::read_record;
use routes::Route;
use sail::geometry::Geometry;
use sail::place::second_place;

// How far the pass over each pool has come: so many chunks are in use at its front, and the last of these is the last that it opened.
// Stays: plain numbers. 0 is no absence here, but the place from which the next free chunk is looked for. With an Option each use
// would be `u.second.map_or(0, |c| c + 1)`.
#[derive(Clone, Copy)]
pub struct Passes {
    pub second: usize,
    pub third: usize,
}

// Whether there is a last chunk, the m-th, and its owner is o.
fn last_is(own: &[u32], m: usize, o: u32) -> bool
    requires { m ≤ length own.now }
    ensures { Tells result (LastIs own.now m o) }
{
    0 < m && own[m - 1] == o
}

// The lowest free chunk, where none before `from` is.
fn next_free(own: &[u32], from: usize) -> usize
    requires { Past own.now from }
    ensures { (result ≡ find own.now 0) × (result ≤ length own.now) }
{
    for c in from..own.len() {
        if own[c] == 0 {
            return c;
        }
    }
    own.len()
}

// A chunk has the owner o: the last one opened, which is the m-th, or the next that is free. Answers which.
fn own_chunk(own: &mut [u32], m: usize, o: u32) -> usize
    requires { MayOwn own.old m o }
    ensures { HasOwner own.old m o own.new result }
{
    if last_is(own, m, o) {
        return m;
    }
    let c = next_free(own, m);
    own[c] = o;
    c + 1
}

// Opens the chunks of a route that comes after all those before it. `top` is added to each owner.
fn open_for(
    g: Geometry,
    r: Route,
    top: u32,
    u: Passes,
    own2: &mut [u32],
    own3: &mut [u32],
) -> Passes
    requires { OpenForReady top g r u own2.old own3.old }
    ensures { Opened top g r own2.old own3.old u result own2.new own3.new }
{
    let p1 = g.p1;
    let p2 = g.p2;
    let a = r.addr;
    let len = u32::from(r.len);
    if len <= p1 {
        return u;
    }
    let second = own_chunk(own2, u.second, top + (slot(p1, a) + 1));
    if len <= p2 {
        return Passes { second, ..u };
    }
    let third = own_chunk(own3, u.third, top + (second_place(g, second, a) as u32 + 1));
    Passes { second, third }
}

// The owners after each record of the input is announced in order by a table that adds `top` to its owners. It has no chunk
// before; others may.
pub fn open_between(g: Geometry, input: &[u8], top: u32, own2: &mut [u32], own3: &mut [u32])
    requires { Between top g input.now own2.old own3.old }
    ensures { owners own2.new own3.new ≡ owners_from top g (owners own2.old own3.old)
        (input_routes input.now) }
{
    let n = input.len() / 8;
    let mut u = Passes {
        second: 0,
        third: 0,
    };
    for k in 0..n {
        u = open_for(g, read_record(input, k), top, u, own2, own3);
    }
}

// The owners after each record of the input is announced in order, where none was before.
pub fn open_all(g: Geometry, input: &[u8], own2: &mut [u32], own3: &mut [u32])
    requires { Ownable g input.now own2.old own3.old }
    ensures { owners own2.new own3.new ≡ owners_after g (owners own2.old own3.old)
        (input_routes input.now) }
{
    open_between(g, input, 0, own2, own3);
}
