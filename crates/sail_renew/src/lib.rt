// All that is lent, written anew for the routes of an input: nothing of what it held is read.
#![tactic(auto)]

ghost use Rattle.std.specs.Prelude.{◌≡◌};
ghost use Rattle.sail.specs.Lent.{lent};
ghost use Rattle.sail_renew.specs.Renew.{Layable, laid_in, Wiped, Renewable, anew};

use buffers::fill::put;
use sail::geometry::Geometry;
use sail::table::Table;
use sail_counts::tick::count_all;
use sail_owners::owners::open_all;
use sail_paint::from_list::repaint_from_list;

// Pools, owners and second counts are 0.
fn wipe(
    second: &mut [u16],
    third: &mut [u16],
    own2: &mut [u32],
    own3: &mut [u32],
    long2: &mut [u16],
)
    ensures { Wiped second.old third.old own2.old own3.old long2.old
        second.new third.new own2.new own3.new long2.new }
{
    second.fill(0);
    third.fill(0);
    own2.fill(0);
    own3.fill(0);
    long2.fill(0);
}

// The list, the cells and the counts of the input's routes, for owners that fit them. Chunks that are not of these owners are
// not read, and stay. Every cell lies under the prefix of no bits, so all live cells are painted.
pub fn lay(
    g: Geometry,
    input: &[u8],
    list: &mut [u8],
    first: &mut [u16],
    second: &mut [u16],
    third: &mut [u16],
    own2: &[u32],
    own3: &[u32],
    long1: &mut [u16],
    long2: &mut [u16],
)
    requires { Layable g input.now (lent list.old first.old second.old third.old own2.now own3.now long1.old long2.old) }
    ensures { lent list.new first.new second.new third.new own2.now
        own3.now long1.new long2.new ≡ laid_in g input.now
        (lent list.old first.old second.old third.old own2.now own3.now
        long1.old long2.old) }
{
    let n = input.len() / 8;
    put(list, input);
    long1.fill(0);
    repaint_from_list(g, input, n, 0, 0, first, second, third, own2, own3);
    count_all(g, input, n, first, own2, long1, long2);
}

// All of it: wiped, the owners opened, and the routes laid.
pub fn write_table(
    t: Table,
    input: &[u8],
    list: &mut [u8],
    first: &mut [u16],
    second: &mut [u16],
    third: &mut [u16],
    own2: &mut [u32],
    own3: &mut [u32],
    long1: &mut [u16],
    long2: &mut [u16],
)
    requires { Renewable t input.now (lent list.old first.old second.old third.old own2.old own3.old long1.old long2.old) }
    ensures { lent list.new first.new second.new third.new own2.new
        own3.new long1.new long2.new ≡ anew t
        (lent list.old first.old second.old third.old own2.old own3.old
        long1.old long2.old) input.now }
{
    let g = t.geometry;
    wipe(second, third, own2, own3, long2);
    open_all(g, input, own2, own3);
    lay(
        g, input, list, first, second, third, own2, own3, long1, long2,
    );
}
