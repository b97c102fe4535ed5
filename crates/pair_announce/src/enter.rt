// A route put into a party's table, on its side of a sound box: its own three arrays, and the five that both share.
ghost use Rattle.std.specs.Prelude.{◌≡◌, ◌-◌};
ghost use Rattle.sail.specs.Lent.{lent};
ghost use Rattle.pair.specs.Party.{party_of, owner_of};
ghost use Rattle.pair.specs.PairSound.{share_of};
ghost use Rattle.pair_announce.specs.Tagged.{tagged, OwnSeen, TagReady};
ghost use Rattle.pair_announce.specs.SideAdds.{TurnReady, TurnTaken, ToEnter, Entered};

use crate::turn::Turn;
use pair::{Pair, Share};
use pair_state::{table_for, with_count};
use routes::Route;
use sail_add::add_in;
use sail_chunks::chunks::chunk_named;
use sail_judge::announce::{AnnounceVerdict, judge_room};

// An owner as the party writes it, by what it sees there: 1 + the place that the chunk hangs from.
fn owner(o: u32, guest: bool) -> u32
    requires { OwnSeen o }
    ensures { result ≡ owner_of (party_of guest) (o - 1) }
{
    if guest {
        return 2147483648 + o;
    }
    o
}

// Chunk c, where the party opened it, gets the owner that the party sees there.
fn tag(own: &mut [u32], see: &[u32], opens: bool, c: usize, guest: bool)
    requires { TagReady opens c see.now own.old }
    ensures { own.new ≡ tagged (party_of guest) opens c see.now own.old }
{
    if opens {
        own[c] = owner(see[c], guest);
    }
}

// The party's share.
fn share_of(t: Pair, guest: bool) -> Share
    ensures { result ≡ share_of (party_of guest) t }
{
    let one = t.one;
    let two = t.two;
    if guest {
        return two;
    }
    one
}

// The route is put in, where nothing speaks against it: with the owners as the party sees them, and with the lowest chunks
// that neither party has. The owners of these are then written as both see them.
fn enter(
    t: Pair,
    list: &mut [u8],
    first: &mut [u16],
    long1: &mut [u16],
    second: &mut [u16],
    third: &mut [u16],
    own2: &mut [u32],
    own3: &mut [u32],
    long2: &mut [u16],
    guest: bool,
    r: Route,
    f: AnnounceVerdict,
    see2: &mut [u32],
    see3: &mut [u32],
    ws: &mut [u64],
    par: &mut [u16],
) -> Pair
    requires { ToEnter (party_of guest) t (lent list.old first.old second.old third.old own2.old own3.old long1.old long2.old) r f
        see2.old see3.old ws.old par.old }
    ensures { Entered (party_of guest) t (lent list.old first.old second.old third.old
        own2.old own3.old long1.old long2.old) r
        result (lent list.new first.new second.new third.new
        own2.new own3.new long1.new long2.new)
        see2.new see3.new ws.new par.new }
{
    let table = table_for(t, guest);
    let opens = f.opens;
    let c2 = chunk_named(own2, 0);
    let c3 = chunk_named(own3, 0);
    let u = add_in(
        table, list, first, second, third, see2, see3, long1, long2, r, f, c2, c3, ws, par,
    );
    tag(own2, see2, opens.second, c2, guest);
    tag(own3, see3, opens.third, c3, guest);
    with_count(t, guest, u.count)
}

// The announcement of a fine route by a party, on its side of a box that is known to be sound: refused with 6, 7 or 8, or
// added. `guest` tells whether the party is the second. `see2` and `see3` have the owners as it sees them, `ws` and `par` the
// words of its routes and their chain, then too.
pub fn announce_sound(
    t: Pair,
    list: &mut [u8],
    first: &mut [u16],
    long1: &mut [u16],
    second: &mut [u16],
    third: &mut [u16],
    own2: &mut [u32],
    own3: &mut [u32],
    long2: &mut [u16],
    guest: bool,
    r: Route,
    see2: &mut [u32],
    see3: &mut [u32],
    ws: &mut [u64],
    par: &mut [u16],
) -> Turn
    requires { TurnReady (party_of guest) t (lent list.old first.old second.old third.old own2.old own3.old long1.old long2.old) r
        see2.old see3.old ws.old par.old }
    ensures { TurnTaken (party_of guest) t (lent list.old first.old second.old third.old
        own2.old own3.old long1.old long2.old) r
        result (lent list.new first.new second.new third.new
        own2.new own3.new long1.new long2.new)
        see2.new see3.new ws.new par.new }
{
    let table = table_for(t, guest);
    let share = share_of(t, guest);
    let f = judge_room(
        table,
        list,
        first,
        second,
        see2,
        see3,
        r,
        share.most2 as usize,
        share.most3 as usize,
    );
    if f.number != 0 {
        return Turn {
            number: f.number,
            stood: false,
            state: t,
        };
    }
    let u = enter(
        t, list, first, long1, second, third, own2, own3, long2, guest, r, f, see2, see3, ws, par,
    );
    Turn {
        number: 0,
        stood: f.stands,
        state: u,
    }
}
