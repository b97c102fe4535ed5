// A withdrawal on a party's side of a box that is known to be sound.
ghost use Rattle.std.specs.Prelude.{◌≡◌};
ghost use Rattle.sail.specs.Lent.{lent};
ghost use Rattle.pair.specs.Party.{party_of};
ghost use Rattle.pair_cells.specs.Sides.{SideSight, side_out};
ghost use Rattle.pair_withdraw.specs.Taking.{SideReady, side_taking};

use crate::owners::shut;
use pair::Pair;
use pair_state::{table_for, with_count};
use sail_judge::withdraw::find_record;
use sail_take::take;

// 0, or the number of the refusal; and the state.
#[derive(Clone, Copy)]
pub struct PairTaken {
    pub number: u8,
    pub state: Pair,
}

// The party's route of the prefix is taken out; 9 where it does not stand. `see2` and `see3` are the owners as the party sees
// them, `ws` and `par` the words of its routes and their chain, and so they are left. So the next change needs no test.
pub fn withdraw_sound(
    t: Pair,
    list: &mut [u8],
    first: &mut [u16],
    long1: &mut [u16],
    second: &mut [u16],
    third: &mut [u16],
    own2: &mut [u32],
    own3: &mut [u32],
    long2: &mut [u16],
    guest: bool,
    addr: u32,
    len: u8,
    see2: &mut [u32],
    see3: &mut [u32],
    ws: &mut [u64],
    par: &mut [u16],
) -> PairTaken
    requires { SideReady (party_of guest) t (lent list.old first.old second.old third.old own2.old own3.old long1.old long2.old)
        addr len see2.old see3.old ws.old par.old }
    ensures { (side_out result.number result.state (lent list.new first.new second.new third.new
        own2.new own3.new long1.new long2.new)
        ≡ side_taking (party_of guest) t (lent list.old first.old second.old third.old
        own2.old own3.old long1.old long2.old) addr len)
        × SideSight (party_of guest) result.state (lent list.new first.new second.new third.new
        own2.new own3.new long1.new long2.new) see2.new see3.new
        ws.new par.new }
{
    let table = table_for(t, guest);
    let f = find_record(list, table.count as usize, addr, len);
    if f.number != 0 {
        return PairTaken {
            number: f.number,
            state: t,
        };
    }
    let u = take(
        table, list, first, second, third, see2, see3, long1, long2, addr, len, f.at, ws, par,
    );
    shut(own2, see2, guest);
    shut(own3, see3, guest);
    PairTaken {
        number: 0,
        state: with_count(t, guest, u.count),
    }
}
