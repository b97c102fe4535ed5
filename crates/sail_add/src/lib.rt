// A route put into a sound table that has room for it, or in the place of the one of its prefix.
#![tactic(auto)]

ghost use Rattle.std.specs.Prelude.{◌≡◌, ◌≤◌};
ghost use Rattle.chain.specs.List.{ChainedFront};
ghost use Rattle.lists.specs.Edit.{count_with};
ghost use Rattle.sail.specs.Lent.{lent};
ghost use Rattle.sail_judge.specs.Announce.{ToAdd};
ghost use Rattle.sail_add.specs.Added.{MeetsAdd, ToAddIn, MeetsAddIn};
ghost use Rattle.sail_add.specs.Booked.{Bookable, Booked};
ghost use Rattle.sail_add.specs.PutIn.{PutInReady, ListPut};

use bits::widen::byte_to_word;
use chain::list::chained_from;
use lists::edit;
use routes::Route;
use sail::geometry::Geometry;
use sail::table::Table;
use sail_chunks::chunks::chunk_named;
use sail_chunks::opening::open;
use sail_counts::tick::tick;
use sail_judge::announce::AnnounceVerdict;
use sail_paint::repaint::repaint;

// How many routes stand after one was put into n, by whether its prefix stood.
fn count_with(stood: bool, n: usize) -> usize
    requires { n ≤ 4096 }
    ensures { (result ≡ count_with stood n) × (result ≤ 4097) }
{
    if stood {
        return n;
    }
    n + 1
}

// The route put into the list's n records at k, the place of its key; the words of the list and their chain are gone on with
// from there. The answer is how many routes then stand.
fn put_in(
    list: &mut [u8],
    n: usize,
    k: usize,
    stands: bool,
    r: Route,
    ws: &mut [u64],
    par: &mut [u16],
) -> usize
    requires { PutInReady list.old n k stands r ws.old par.old }
    ensures { ListPut list.old n stands r list.new result ws.new par.new }
{
    edit::put_at(list, n, k, stands, r);
    let m = count_with(stands, n);
    chained_from(list, m, k, ws, par);
    m
}

// The counts with the route, where it is added; a replacement changes none.
fn count_in(added: bool, g: Geometry, r: Route, first: &[u16], long1: &mut [u16], long2: &mut [u16])
    requires { Bookable added g r first.now long1.old long2.old }
    ensures { Booked added g r first.now
        long1.old long2.old long1.new long2.new }
{
    if added {
        tick(g, r.addr, r.len, first, long1, long2, true);
    }
}

// The announcement, where nothing speaks against it: the chunks that it opens are c2 and c3, the route is put into the list,
// what it touches is painted again, and it is counted. Others may use the pools too: of their chunks, whose owners are 0 here,
// nothing is read or written. `ws` and `par` have the words of the list and their chain, then too. The answer is the new state.
pub fn add_in(
    t: Table,
    list: &mut [u8],
    first: &mut [u16],
    second: &mut [u16],
    third: &mut [u16],
    own2: &mut [u32],
    own3: &mut [u32],
    long1: &mut [u16],
    long2: &mut [u16],
    r: Route,
    f: AnnounceVerdict,
    c2: usize,
    c3: usize,
    ws: &mut [u64],
    par: &mut [u16],
) -> Table
    requires to_add_in { ToAddIn t (lent list.old first.old second.old third.old own2.old own3.old long1.old long2.old) r f c2 c3 }
    requires chained_front { ChainedFront list.old t.count ws.old par.old }
    ensures { MeetsAddIn t (lent list.old first.old second.old third.old
        own2.old own3.old long1.old long2.old) r c2 c3
        result (lent list.new first.new second.new third.new
        own2.new own3.new long1.new long2.new)
        × ChainedFront list.new result.count ws.new par.new }
{
    let g = t.geometry;
    let n = t.count as usize;
    open(g, r, f.opens, c2, c3, own2, own3);
    let m = put_in(list, n, f.at, f.stands, r, ws, par);
    repaint(
        &ws[..m],
        par,
        g,
        r.addr,
        byte_to_word(r.len),
        first,
        second,
        third,
        own2,
        own3,
    );
    count_in(!f.stands, g, r, first, long1, long2);
    Table {
        geometry: g,
        count: m as u32,
    }
}

// The announcement in a table that has its pools alone: the chunks that it opens are the lowest free ones.
pub fn add(
    t: Table,
    list: &mut [u8],
    first: &mut [u16],
    second: &mut [u16],
    third: &mut [u16],
    own2: &mut [u32],
    own3: &mut [u32],
    long1: &mut [u16],
    long2: &mut [u16],
    r: Route,
    f: AnnounceVerdict,
    ws: &mut [u64],
    par: &mut [u16],
) -> Table
    requires to_add { ToAdd t (lent list.old first.old second.old third.old own2.old own3.old long1.old long2.old) r f }
    requires chained_front { ChainedFront list.old t.count ws.old par.old }
    ensures { MeetsAdd t (lent list.old first.old second.old third.old
        own2.old own3.old long1.old long2.old) r
        result (lent list.new first.new second.new third.new
        own2.new own3.new long1.new long2.new)
        × ChainedFront list.new result.count ws.new par.new }
{
    let c2 = chunk_named(own2, 0);
    let c3 = chunk_named(own3, 0);
    add_in(
        t, list, first, second, third, own2, own3, long1, long2, r, f, c2, c3, ws, par,
    )
}
