// The soundness test of a table whose pools others share: all that is its own. What lies in free chunks is not read.
ghost use Rattle.bits.specs.Tab.{Tells};
ghost use Rattle.chain.specs.Words.{routes_of_words};
ghost use Rattle.chain.specs.Cover.{ChainReady};
ghost use Rattle.chain.specs.List.{Scratch};
ghost use Rattle.sail.specs.Lent.{lent, cells};
ghost use Rattle.sail.specs.Sizes.{Sized, Celled};
ghost use Rattle.sail_sound.specs.TableTest.{CountsBeside};
ghost use Rattle.sail_sound.specs.Seen.{PassedSeen, SeenWith};

use crate::test::live_ok;
use chain::list::chained_from;
use lists::test::list_ok;
use sail::geometry::Geometry;
use sail::table::Table;
use sail_counts_test::deep_counts_ok;

// The live cells, and the counts where chunks hang.
fn cells_seen_ok(
    ws: &[u64],
    par: &[u16],
    g: Geometry,
    first: &[u16],
    second: &[u16],
    third: &[u16],
    own2: &[u32],
    own3: &[u32],
    long1: &[u16],
    long2: &[u16],
) -> bool
    requires chain_ready { ChainReady ws.now par.now }
    requires celled { Celled g (cells first.now second.now third.now own2.now own3.now) }
    requires counts_beside { CountsBeside first.now second.now long1.now long2.now }
    ensures { Tells result (PassedSeen (routes_of_words ws.now) g (cells first.now second.now
        third.now own2.now own3.now) long1.now long2.now) }
{
    if !live_ok(ws, par, g, first, second, third, own2, own3) {
        return false;
    }
    deep_counts_ok(ws, g, first, second, own2, own3, long1, long2)
}

// Whether a list, its cells and its counts are right, where the sizes are; `ws` and `par` are room for the words of its routes
// and their chain, which are left there.
pub fn seen_ok(
    t: Table,
    list: &[u8],
    first: &[u16],
    second: &[u16],
    third: &[u16],
    own2: &[u32],
    own3: &[u32],
    long1: &[u16],
    long2: &[u16],
    ws: &mut [u64],
    par: &mut [u16],
) -> bool
    requires sized { Sized t.geometry (lent list.now first.now second.now third.now own2.now own3.now long1.now long2.now) }
    requires scratch { Scratch ws.old par.old }
    ensures { SeenWith result t (lent list.now first.now second.now third.now own2.now
        own3.now long1.now long2.now) ws.new par.new }
{
    let n = t.count as usize;
    if !list_ok(list, n) {
        return false;
    }
    chained_from(list, n, 0, ws, par);
    let g = t.geometry;
    cells_seen_ok(
        &ws[..n],
        par,
        g,
        first,
        second,
        third,
        own2,
        own3,
        long1,
        long2,
    )
}
