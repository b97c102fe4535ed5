// How many cells of a table differ from those that a load of an input would leave, counted before anything is written: the owners that
// the load would leave are settled, and the words of its routes made, in room of its own.
#![tactic(auto)]

ghost use Rattle.std.specs.Prelude.{length};
ghost use Rattle.sail_theory.specs.Calls.{input_routes};
ghost use Rattle.repair_levels.specs.Levels.{Differing, wanted};
ghost use Rattle.repair_differs.specs.Differs.{fresh_owners, DiffReady, DiffRoom};

use chain::list::chained;
use repair_levels::{Differs, count_from};
use sail::geometry::Geometry;
use sail_owners::owners::open_all;

// Beside what a load of the input would leave in free chunks: `own2` and `own3` are its owners yet to be settled, `ws` and `par`
// room for the words of the routes and their chain.
fn count_with(
    g: Geometry,
    input: &[u8],
    first: &[u16],
    second: &[u16],
    third: &[u16],
    own2: &mut [u32],
    own3: &mut [u32],
    ws: &mut [u64],
    par: &mut [u16],
    want: &mut [u16],
) -> Differs
    requires { DiffRoom g input.now first.now second.now third.now own2.old own3.old ws.old par.old want.old }
    ensures { Differing result first.now second.now third.now (wanted g (input_routes
        input.now) (fresh_owners g input.now (length own2.old) (length own3.old))) }
{
    let n = input.len() / 8;
    open_all(g, input, own2, own3);
    chained(input, &mut ws[..n], par);
    count_from(&ws[..n], par, g, first, second, third, own2, own3, want)
}

// The same with room of its own, for pools of n2 and n3 chunks.
pub fn count_cells(
    g: Geometry,
    input: &[u8],
    first: &[u16],
    second: &[u16],
    third: &[u16],
    n2: usize,
    n3: usize,
) -> Differs
    requires { DiffReady g input.now n2 n3 first.now second.now third.now }
    ensures { Differing result first.now second.now third.now (wanted g (input_routes
        input.now) (fresh_owners g input.now n2 n3)) }
{
    let mut own2 = [0u32; 4096];
    let mut own3 = [0u32; 4096];
    let mut ws = [0u64; 4096];
    let mut par = [0u16; 4353];
    let mut want = [0u16; 1024];
    count_with(
        g,
        input,
        first,
        second,
        third,
        &mut own2[..n2],
        &mut own3[..n3],
        &mut ws,
        &mut par,
        &mut want,
    )
}
