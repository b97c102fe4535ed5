// A part of lent cells that stand for a block of cells which lie in one cell of a level above: judged from the words under that cell
// alone, and the hop that the block inherits. `par` is what `chain::cover::ready` makes of the words.
ghost use Rattle.std.specs.Prelude.{length};
ghost use Rattle.bits.specs.Tab.{Tells};
ghost use Rattle.chain.specs.Words.{routes_of_words};
ghost use Rattle.plan_test.specs.Part.{Right, Tested};

use super::part::as_planned;
use chain::cover::{inherited, run_start};
use chain::place::run_end;

// Whether a part is as the routes ask for these cells; `want` is room for the plan, and cell j of the part has the owner
// number o + j.
pub fn right_under(
    ws: &[u64],
    par: &[u16],
    l: u32,
    i: u64,
    p: u32,
    base: usize,
    part: &[u16],
    o: usize,
    want: &mut [u16],
    own: &[u32],
) -> bool
    requires { Tested ws.now par.now l i p base o part.now want.old }
    ensures { Tells result (Right (routes_of_words ws.now) p base part.now own.now o (length want.old)) }
{
    let lo = run_start(ws, par, l, i);
    let hi = run_end(ws, lo, l, i);
    let h = inherited(ws, par, lo, l, i);
    as_planned(&ws[lo..hi], h, p, base, part, o, want, own)
}
