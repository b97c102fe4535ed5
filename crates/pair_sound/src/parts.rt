// The parts of the soundness test of a box: each party's own, and the pools of both.
ghost use Rattle.std.specs.Prelude.{◌≡◌};
ghost use Rattle.bits.specs.Tab.{Tells};
ghost use Rattle.chain.specs.List.{Scratch};
ghost use Rattle.sail.specs.Lent.{lent};
ghost use Rattle.sail.specs.Sizes.{Sized};
ghost use Rattle.pair.specs.Party.{party_of};
ghost use Rattle.pair_sound.specs.BoxTest.{PartyTold, Sight, PoolsRight, PoolsReady};

use pair_owners::{nobodys_ok, view};
use sail::geometry::Geometry;
use sail::table::Table;
use sail_cells_test::free_all;
use sail_counts_test::idle_ok;
use sail_sound::report::in_use;
use sail_sound::seen::seen_ok;

// Whether a party's list, cells and counts are right, and it uses no more chunks than its limits. `guest` tells whether it is
// the second. The owners as it sees them are left in `see2` and `see3`, the words of its routes and their chain in `ws` and
// `par`.
pub fn party_ok(
    t: Table,
    most2: u32,
    most3: u32,
    guest: bool,
    list: &[u8],
    first: &[u16],
    second: &[u16],
    third: &[u16],
    own2: &[u32],
    own3: &[u32],
    long1: &[u16],
    long2: &[u16],
    see2: &mut [u32],
    see3: &mut [u32],
    ws: &mut [u64],
    par: &mut [u16],
) -> bool
    requires sized { Sized t.geometry (lent list.now first.now second.now third.now own2.now own3.now long1.now long2.now) }
    requires sight { Sight own2.now own3.now see2.old see3.old }
    requires scratch { Scratch ws.old par.old }
    ensures { PartyTold result (party_of guest) t most2 most3
        (lent list.now first.now second.now third.now own2.now own3.now
        long1.now long2.now) see2.new see3.new ws.new par.new }
{
    view(own2, guest, see2);
    view(own3, guest, see3);
    if most2 < in_use(see2) {
        return false;
    }
    if most3 < in_use(see3) {
        return false;
    }
    seen_ok(
        t, list, first, second, third, see2, see3, long1, long2, ws, par,
    )
}

// Whether the pools that both share are right: owners, free chunks, and counts where no chunk is named.
pub fn pools_ok(
    g: Geometry,
    second: &[u16],
    third: &[u16],
    own2: &[u32],
    own3: &[u32],
    long2: &[u16],
) -> bool
    requires { PoolsReady g second.now third.now own2.now own3.now long2.now }
    ensures { Tells result (PoolsRight g second.now third.now own2.now own3.now long2.now) }
{
    if !nobodys_ok(own2) {
        return false;
    }
    if !nobodys_ok(own3) {
        return false;
    }
    if !free_all(g.p2 - g.p1, second, own2) {
        return false;
    }
    if !free_all(32 - g.p2, third, own3) {
        return false;
    }
    idle_ok(second, long2)
}
