// A table painted again, where the routes under a prefix have changed.
ghost use Rattle.chain.specs.Words.{routes_of_words};
ghost use Rattle.sail.specs.Lent.{cells};
ghost use Rattle.sail_paint.specs.Stale.{Stale, Repainted};

use crate::part::paint_first;
use crate::pool::{paint_pool, stamp};
use sail::geometry::Geometry;

// Makes the live cells of all three levels what the routes and owners ask for, where none is wrong but those that a change
// at the prefix of len bits of addr made stale. Cells of free chunks are neither read nor written. `par` is what
// `chain::cover::ready` makes of the words. The owners are gone through twice; of the cells, only stale ones are painted.
pub fn repaint(
    ws: &[u64],
    par: &[u16],
    g: Geometry,
    addr: u32,
    len: u32,
    first: &mut [u16],
    second: &mut [u16],
    third: &mut [u16],
    own2: &[u32],
    own3: &[u32],
)
    requires { Stale g ws.now par.now addr len (cells first.old second.old third.old own2.now own3.now) }
    ensures { Repainted g (routes_of_words ws.now) (cells first.old second.old third.old
        own2.now own3.now) first.new second.new third.new }
{
    let p1 = g.p1;
    let p2 = g.p2;
    paint_first(ws, par, p1, addr, len, first);
    stamp(first, own2);
    paint_pool(ws, par, addr, len, p1, p2, own2, 0, own2, second);
    stamp(second, own3);
    paint_pool(ws, par, addr, len, p2, 32, own2, p2 - p1, own3, third);
}
