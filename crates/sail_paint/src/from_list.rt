// A table painted again from its list, where the list and the owners have changed at a prefix.
ghost use Rattle.routes.specs.Record.{routes_of};
ghost use Rattle.sail.specs.Lent.{cells};
ghost use Rattle.sail_paint.specs.Stale.{Repainted};
ghost use Rattle.sail_paint.specs.Pending.{Pending};

use crate::repaint::repaint;
use chain::list::chained_from;
use sail::geometry::Geometry;

// The live cells become what the first n records of the list and the owners ask for; the others stay. `addr` and `len` are
// the prefix at which these have changed, and no cell that it does not touch is painted. The words of the routes and their
// chain are made from nothing, in room of its own.
pub fn repaint_from_list(
    g: Geometry,
    list: &[u8],
    n: usize,
    addr: u32,
    len: u32,
    first: &mut [u16],
    second: &mut [u16],
    third: &mut [u16],
    own2: &[u32],
    own3: &[u32],
)
    requires { Pending g n addr len list.now (cells first.old second.old third.old own2.now own3.now) }
    ensures { Repainted g (routes_of list.now n) (cells first.old second.old third.old
        own2.now own3.now) first.new second.new third.new }
{
    let mut ws = [0u64; 4096];
    let mut par = [0u16; 4353];
    chained_from(list, n, 0, &mut ws, &mut par);
    repaint(
        &ws[..n],
        &par,
        g,
        addr,
        len,
        first,
        second,
        third,
        own2,
        own3,
    );
}
