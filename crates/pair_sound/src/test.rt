// The soundness test of a whole box: the limits, the pools of both, the other party's own, and then the calling party's.
ghost use Rattle.std.specs.Prelude.{◌+◌, ◌≤◌};
ghost use Rattle.bits.specs.Tab.{Tells};
ghost use Rattle.chain.specs.List.{Scratch};
ghost use Rattle.pair.specs.Party.{party_of};
ghost use Rattle.pair.specs.PairLent.{pair_lent};
ghost use Rattle.pair_sound.specs.BoxTest.{Sight, BothSized, BoxTold};

use crate::parts::{party_ok, pools_ok};
use pair::Pair;
use sail::table::Table;

// Whether the limits of both fit pools of so many chunks.
pub fn limits_ok(t: Pair, chunks2: usize, chunks3: usize) -> bool
    ensures { Tells result ((t.one.most2 + t.two.most2 ≤ chunks2) × (t.one.most3 + t.two.most3 ≤ chunks3)) }
{
    let one = t.one;
    let two = t.two;
    if (chunks2 as u64) < one.most2 as u64 + two.most2 as u64 {
        return false;
    }
    one.most3 as u64 + two.most3 as u64 <= chunks3 as u64
}

// Whether a box of the right sizes is sound. `guest` tells whether the calling party is the second. What it sees of the owners
// is left in `see2` and `see3`, the words of its routes and their chain in `ws` and `par`.
pub fn sound(
    t: Pair,
    guest: bool,
    list1: &[u8],
    first1: &[u16],
    long11: &[u16],
    list2: &[u8],
    first2: &[u16],
    long12: &[u16],
    second: &[u16],
    third: &[u16],
    own2: &[u32],
    own3: &[u32],
    long2: &[u16],
    see2: &mut [u32],
    see3: &mut [u32],
    ws: &mut [u64],
    par: &mut [u16],
) -> bool
    requires both_sized { BothSized t.geometry (pair_lent list1.now first1.now long11.now list2.now first2.now long12.now
        second.now third.now own2.now own3.now long2.now) }
    requires sight { Sight own2.now own3.now see2.old see3.old }
    requires scratch { Scratch ws.old par.old }
    ensures { BoxTold result (party_of guest) t
        (pair_lent list1.now first1.now long11.now list2.now first2.now long12.now
        second.now third.now own2.now own3.now long2.now)
        see2.new see3.new ws.new par.new }
{
    let geometry = t.geometry;
    let one = t.one;
    let two = t.two;
    if !limits_ok(t, own2.len(), own3.len()) {
        return false;
    }
    if !pools_ok(geometry, second, third, own2, own3, long2) {
        return false;
    }
    let table1 = Table {
        geometry,
        count: one.count,
    };
    let table2 = Table {
        geometry,
        count: two.count,
    };
    if guest {
        if !party_ok(
            table1, one.most2, one.most3, false, list1, first1, second, third, own2, own3, long11,
            long2, see2, see3, ws, par,
        ) {
            return false;
        }
        return party_ok(
            table2, two.most2, two.most3, true, list2, first2, second, third, own2, own3, long12,
            long2, see2, see3, ws, par,
        );
    }
    if !party_ok(
        table2, two.most2, two.most3, true, list2, first2, second, third, own2, own3, long12,
        long2, see2, see3, ws, par,
    ) {
        return false;
    }
    party_ok(
        table1, one.most2, one.most3, false, list1, first1, second, third, own2, own3, long11,
        long2, see2, see3, ws, par,
    )
}
