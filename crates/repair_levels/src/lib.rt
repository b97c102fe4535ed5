// How many cells of the three levels differ from what routes and owners ask for: those that are to be leaves or 0, and those that are to
// name a chunk. The latter are compared with that chunk's number, by one pass over the owners.
#![tactic(auto)]

ghost use Rattle.std.specs.Prelude.{length};
ghost use Rattle.chain.specs.Words.{routes_of_words};
ghost use Rattle.sail.specs.Lent.{cells};
ghost use Rattle.sail.specs.Level.{entry};
ghost use Rattle.sail_owners.specs.Owners.{owners};
ghost use Rattle.repair_leaves.specs.Leaves.{CountIs};
ghost use Rattle.repair_levels.specs.Levels.{off_name, DiffNamesReady, Owned, Differing, wanted};

use repair_leaves::{off_first, off_pool};
use sail::geometry::Geometry;
use sail_paint::place::owner_at;

// How many cells of each array differ.
#[derive(Clone, Copy)]
pub struct Differs {
    pub first: usize,
    pub second: usize,
    pub third: usize,
}

// How many chunks in use have a number, from 1, that the cell which they hang from does not hold.
fn off_names(cells: &[u16], own: &[u32]) -> usize
    requires { DiffNamesReady own.now cells.now }
    ensures { CountIs result (off_name (entry own.now) (entry cells.now)) (length own.now) }
{
    let mut m = 0;
    for c in 0..own.len() {
        let o = owner_at(own, c);
        let number = c + 1;
        if o != 0 {
            if usize::from(cells[o - 1]) != number {
                m += 1;
            }
        }
    }
    m
}

// The cells of all three levels beside what the routes of the words ask for with these owners.
pub fn count_from(
    ws: &[u64],
    par: &[u16],
    g: Geometry,
    first: &[u16],
    second: &[u16],
    third: &[u16],
    own2: &[u32],
    own3: &[u32],
    want: &mut [u16],
) -> Differs
    requires { Owned g ws.now par.now (cells first.now second.now third.now own2.now own3.now) want.old }
    ensures { Differing result first.now second.now third.now (wanted g (routes_of_words ws.now)
        (owners own2.now own3.now)) }
{
    let p1 = g.p1;
    let p2 = g.p2;
    let leaves1 = off_first(ws, par, p1, first, want);
    let names1 = off_names(first, own2);
    let leaves2 = off_pool(ws, par, p1, p2, own2, 0, own2, second, want);
    let names2 = off_names(second, own3);
    let leaves3 = off_pool(ws, par, p2, 32, own2, p2 - p1, own3, third, want);
    Differs {
        first: leaves1 + names1,
        second: leaves2 + names2,
        third: leaves3,
    }
}
