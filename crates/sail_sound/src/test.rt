// The soundness test of a whole table: its list, then its three levels and its counts beside the routes of the list.
ghost use Rattle.bits.specs.Tab.{Tells};
ghost use Rattle.chain.specs.Words.{routes_of_words};
ghost use Rattle.chain.specs.Cover.{ChainReady};
ghost use Rattle.chain.specs.List.{Scratch};
ghost use Rattle.sail.specs.Lent.{lent, cells};
ghost use Rattle.sail.specs.Sizes.{Sized, Celled};
ghost use Rattle.sail_sound.specs.TableTest.{Passed, PassedAll, CountsBeside, PassedTable, TriedWith};

use chain::list::chained_from;
use lists::test::list_ok;
use sail::geometry::Geometry;
use sail::table::Table;
use sail_cells_test::{first_ok, free_all, owned_all};
use sail_counts_test::counts_ok;

// The live cells of the three levels beside the routes of the words. The first cells are one chunk, whose owner is 1; a third
// cell names no chunk.
pub fn live_ok(
    ws: &[u64],
    par: &[u16],
    g: Geometry,
    first: &[u16],
    second: &[u16],
    third: &[u16],
    own2: &[u32],
    own3: &[u32],
) -> bool
    requires chain_ready { ChainReady ws.now par.now }
    requires celled { Celled g (cells first.now second.now third.now own2.now own3.now) }
    ensures { Tells result (Passed (routes_of_words ws.now) g (cells first.now second.now
        third.now own2.now own3.now)) }
{
    let p1 = g.p1;
    let p2 = g.p2;
    let d = p2 - p1;
    let mut want = [0u16; 1024];
    if !first_ok(ws, par, p1, first, 1, own2, &mut want) {
        return false;
    }
    let root = [1u32; 1];
    if !owned_all(
        ws, par, p2, d, &root, p1, first, second, own2, own3, &mut want,
    ) {
        return false;
    }
    let none = &own3[..0];
    owned_all(
        ws,
        par,
        32,
        32 - p2,
        own2,
        d,
        second,
        third,
        own3,
        none,
        &mut want,
    )
}

// All three levels: the live cells, and that the free chunks of both pools are zero.
fn levels_ok(
    ws: &[u64],
    par: &[u16],
    g: Geometry,
    first: &[u16],
    second: &[u16],
    third: &[u16],
    own2: &[u32],
    own3: &[u32],
) -> bool
    requires chain_ready { ChainReady ws.now par.now }
    requires celled { Celled g (cells first.now second.now third.now own2.now own3.now) }
    ensures { Tells result (PassedAll (routes_of_words ws.now) g (cells first.now second.now
        third.now own2.now own3.now)) }
{
    if !live_ok(ws, par, g, first, second, third, own2, own3) {
        return false;
    }
    if !free_all(g.p2 - g.p1, second, own2) {
        return false;
    }
    free_all(32 - g.p2, third, own3)
}

// The levels, and then the counts of the first two.
fn table_ok(
    ws: &[u64],
    par: &[u16],
    g: Geometry,
    first: &[u16],
    second: &[u16],
    third: &[u16],
    own2: &[u32],
    own3: &[u32],
    long1: &[u16],
    long2: &[u16],
) -> bool
    requires chain_ready { ChainReady ws.now par.now }
    requires celled { Celled g (cells first.now second.now third.now own2.now own3.now) }
    requires counts_beside { CountsBeside first.now second.now long1.now long2.now }
    ensures { Tells result (PassedTable (routes_of_words ws.now) g (cells first.now second.now
        third.now own2.now own3.now) long1.now long2.now) }
{
    if !levels_ok(ws, par, g, first, second, third, own2, own3) {
        return false;
    }
    counts_ok(ws, g, first, second, own2, own3, long1, long2)
}

// Whether a table of the right sizes is sound; `ws` and `par` are room for the words of its routes and their chain, which are
// left there.
pub fn sound(
    t: Table,
    list: &[u8],
    first: &[u16],
    second: &[u16],
    third: &[u16],
    own2: &[u32],
    own3: &[u32],
    long1: &[u16],
    long2: &[u16],
    ws: &mut [u64],
    par: &mut [u16],
) -> bool
    requires sized { Sized t.geometry (lent list.now first.now second.now third.now own2.now own3.now long1.now long2.now) }
    requires scratch { Scratch ws.old par.old }
    ensures { TriedWith result t (lent list.now first.now second.now third.now own2.now
        own3.now long1.now long2.now) ws.new par.new }
{
    let n = t.count as usize;
    if !list_ok(list, n) {
        return false;
    }
    chained_from(list, n, 0, ws, par);
    let g = t.geometry;
    table_ok(
        &ws[..n],
        par,
        g,
        first,
        second,
        third,
        own2,
        own3,
        long1,
        long2,
    )
}
