// A block of cells that lie in one cell of a level above: planned from the words under that cell alone, and the hop that it
// inherits. So the words are gone through once for a level, and never for each cell. `par` is what `chain::cover::ready` makes of
// the words.
ghost use Rattle.std.specs.Prelude.{◌≡◌, length};
ghost use Rattle.chain.specs.Words.{routes_of_words};
ghost use Rattle.plan.specs.Plan.{planned};
ghost use Rattle.plan.specs.Under.{Block};

use super::paint::plan_words;
use chain::cover::{inherited, run_start};
use chain::place::run_end;

// The cells of level p from base on, as many as `out` has, which lie in cell i of level l.
pub fn plan_under(ws: &[u64], par: &[u16], l: u32, i: u64, p: u32, base: usize, out: &mut [u16])
    requires { Block ws.now par.now l i p base (length out.old) }
    ensures { out.new ≡ planned (routes_of_words ws.now) p base (length out.old) }
{
    let lo = run_start(ws, par, l, i);
    let hi = run_end(ws, lo, l, i);
    let h = inherited(ws, par, lo, l, i);
    plan_words(&ws[lo..hi], h, p, base, out);
}
