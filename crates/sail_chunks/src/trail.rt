// The cells that serve an address where the first two levels serve the routes, and the chunks that they name.
ghost use Rattle.routes.specs.Record.{routes_of};
ghost use Rattle.sail_chunks.specs.Trail.{Serving, Trailed};

use sail::place::second_place;
use sail::table::Table;

// The first cell of an address; and its second cell, which is a leaf where the first is one.
#[derive(Clone, Copy)]
pub struct Trail {
    pub first: u16,
    pub second: u16,
}

pub fn follow(
    t: Table,
    list: &[u8],
    first: &[u16],
    second: &[u16],
    own2: &[u32],
    own3: &[u32],
    addr: u32,
) -> Trail
    requires { Serving t.geometry (routes_of list.now t.count) first.now second.now own2.now own3.now }
    ensures { Trailed t.geometry (routes_of list.now t.count) own2.now own3.now addr result.first result.second }
{
    let g = t.geometry;
    let v = first[bits::slot(g.p1, addr) as usize];
    if 32768 <= v {
        return Trail {
            first: v,
            second: 32768,
        };
    }
    let q = second_place(g, v as usize, addr);
    Trail {
        first: v,
        second: second[q],
    }
}
