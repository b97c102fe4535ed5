// A route taken out of a sound table in which it stands. Others may use the table's pools too: what they hold there is not read, and stays.
#![tactic(auto)]

ghost use Rattle.chain.specs.List.{ChainedFront};
ghost use Rattle.sail.specs.Lent.{lent};
ghost use Rattle.sail_take.specs.Taken.{ToTakeIn, TakenIn};
ghost use Rattle.sail_take.specs.TakenOut.{TakeOutReady, ListTaken};

use bits::widen::byte_to_word;
use chain::list::chained_from;
use lists::edit;
use sail::table::Table;
use sail_chunks::chunks::close;
use sail_chunks::trail::follow;
use sail_counts::tick::tick;
use sail_paint::repaint::repaint;

// Record k taken out of the list's n records; the words of the list and their chain are gone on with from there. The answer
// is how many routes are left.
fn take_out(list: &mut [u8], n: usize, k: usize, ws: &mut [u64], par: &mut [u16]) -> usize
    requires { TakeOutReady list.old n k ws.old par.old }
    ensures { ListTaken list.old n k list.new result ws.new par.new }
{
    edit::remove_at(list, n, k);
    let m = n - 1;
    chained_from(list, m, k, ws, par);
    m
}

// The withdrawal, where the prefix stands: its record is taken out of the list and counted no more, chunks whose count falls
// to 0 are closed, and what it touched is painted again. `ws` and `par` have the words of the list and their chain, at exit
// those of the new list. `own2` and `own3` are the owners that the table sees: 0 for what is not its own. The answer is the new
// state.
pub fn take(
    t: Table,
    list: &mut [u8],
    first: &mut [u16],
    second: &mut [u16],
    third: &mut [u16],
    own2: &mut [u32],
    own3: &mut [u32],
    long1: &mut [u16],
    long2: &mut [u16],
    addr: u32,
    len: u8,
    at: usize,
    ws: &mut [u64],
    par: &mut [u16],
) -> Table
    requires to_take_in { ToTakeIn t (lent list.old first.old second.old third.old own2.old own3.old long1.old long2.old) addr len at }
    requires chained_front { ChainedFront list.old t.count ws.old par.old }
    ensures { TakenIn t (lent list.old first.old second.old third.old
        own2.old own3.old long1.old long2.old) addr len
        result (lent list.new first.new second.new third.new
        own2.new own3.new long1.new long2.new)
        × ChainedFront list.new result.count ws.new par.new }
{
    let g = t.geometry;
    let p1 = g.p1;
    let p2 = g.p2;
    let n = t.count as usize;
    let v = follow(t, list, first, second, own2, own3, addr);
    let m = take_out(list, n, at, ws, par);
    let left = tick(g, addr, len, first, long1, long2, false);
    close(
        own2,
        second,
        left.first == 0,
        (v.first - 1) as usize,
        p2 - p1,
    );
    close(
        own3,
        third,
        left.second == 0,
        (v.second - 1) as usize,
        32 - p2,
    );
    repaint(
        &ws[..m],
        par,
        g,
        addr,
        byte_to_word(len),
        first,
        second,
        third,
        own2,
        own3,
    );
    Table {
        geometry: g,
        count: m as u32,
    }
}
