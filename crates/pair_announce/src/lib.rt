// Announce, for one of two parties in a box: a route is added to its table, or replaces the one of its prefix.
#![tactic(auto)]

ghost use Rattle.std.specs.Prelude.{[], ◌∷◌, ◌≡◌};
ghost use Rattle.bits.specs.Count.{bit};
ghost use Rattle.chain.specs.List.{Scratch};
ghost use Rattle.routes.specs.Said.{accepted};
ghost use Rattle.sail_announce.specs.Answers.{means_announce};
ghost use Rattle.sail_theory.specs.Calls.{or_say, with_flag};
ghost use Rattle.pair.specs.Party.{party_of};
ghost use Rattle.pair.specs.PairLent.{pair_lent};
ghost use Rattle.pair.specs.PairCalls.{pair_out, pair_adding};
ghost use Rattle.pair_sound.specs.BoxTest.{Sight, BothSized};
ghost use Rattle.pair_announce.specs.SideAdds.{turn_said};
ghost use Rattle.pair_announce.specs.Contract.{MeetsPairAnnounce};

pub mod enter;
pub mod judge;
pub mod turn;

use crate::enter::announce_sound;
use crate::judge::judge;
use crate::turn::{PairAnnounced, Turn};
use pair::Pair;
use pair_sizes::check_sizes;
use routes::Route;
use routes::prefix::clear_after;
use sail_announce::answer_of;
use sail_announce::answers::Announce;

// What the call answers: a refusal, or whether the prefix stood and whether bits were cleared.
fn answer(number: u8, stood: bool, cleared: bool) -> Announce
    ensures { means_announce result ≡ with_flag cleared (or_say number (accepted (bit stood ∷ []))) }
{
    if number != 0 {
        return Announce::Refused(number);
    }
    answer_of(stood, cleared)
}

// Where the sizes are right; the rest is room for what the party sees. The arms differ in whose three arrays are handed on.
fn announce_sized(
    t: Pair,
    list1: &mut [u8],
    first1: &mut [u16],
    long11: &mut [u16],
    list2: &mut [u8],
    first2: &mut [u16],
    long12: &mut [u16],
    second: &mut [u16],
    third: &mut [u16],
    own2: &mut [u32],
    own3: &mut [u32],
    long2: &mut [u16],
    guest: bool,
    r: Route,
    see2: &mut [u32],
    see3: &mut [u32],
    ws: &mut [u64],
    par: &mut [u16],
) -> Turn
    requires both_sized { BothSized t.geometry (pair_lent list1.old first1.old long11.old list2.old first2.old long12.old
        second.old third.old own2.old own3.old long2.old) }
    requires sight { Sight own2.old own3.old see2.old see3.old }
    requires scratch { Scratch ws.old par.old }
    ensures { pair_out (turn_said result) result.state
        (pair_lent list1.new first1.new long11.new list2.new first2.new long12.new
        second.new third.new own2.new own3.new long2.new)
        ≡ pair_adding (party_of guest) t
        (pair_lent list1.old first1.old long11.old list2.old first2.old long12.old
        second.old third.old own2.old own3.old long2.old) r }
{
    let n = judge(
        t, list1, first1, long11, list2, first2, long12, second, third, own2, own3, long2, guest,
        r, see2, see3, ws, par,
    );
    if n != 0 {
        return Turn {
            number: n,
            stood: false,
            state: t,
        };
    }
    if guest {
        return announce_sound(
            t, list2, first2, long12, second, third, own2, own3, long2, true, r, see2, see3, ws,
            par,
        );
    }
    announce_sound(
        t, list1, first1, long11, second, third, own2, own3, long2, false, r, see2, see3, ws, par,
    )
}

// The party announces a route: `guest` tells whether it is the second. Bits after the length are cleared first, and an accepted
// answer says whether any were. A refusal leaves the state and all that is lent as they were.
pub fn announce(
    t: Pair,
    list1: &mut [u8],
    first1: &mut [u16],
    long11: &mut [u16],
    list2: &mut [u8],
    first2: &mut [u16],
    long12: &mut [u16],
    second: &mut [u16],
    third: &mut [u16],
    own2: &mut [u32],
    own3: &mut [u32],
    long2: &mut [u16],
    guest: bool,
    route: Route,
) -> PairAnnounced
    ensures { MeetsPairAnnounce (party_of guest) t
        (pair_lent list1.old first1.old long11.old list2.old first2.old long12.old
        second.old third.old own2.old own3.old long2.old) route
        result (pair_lent list1.new first1.new long11.new list2.new first2.new long12.new
        second.new third.new own2.new own3.new long2.new) }
{
    if let Err(why) = check_sizes(
        t, list1, first1, long11, list2, first2, long12, second, third, own2, own3, long2,
    ) {
        return PairAnnounced {
            answer: Announce::Refused(why.number()),
            state: t,
        };
    }
    let a = clear_after(route.addr, route.len);
    let r = Route {
        addr: a,
        len: route.len,
        mark: route.mark,
        hop: route.hop,
    };
    let n2 = own2.len();
    let n3 = own3.len();
    let mut see2 = [0u32; 4096];
    let mut see3 = [0u32; 4096];
    let mut ws = [0u64; 4096];
    let mut par = [0u16; 4353];
    let f = announce_sized(
        t,
        list1,
        first1,
        long11,
        list2,
        first2,
        long12,
        second,
        third,
        own2,
        own3,
        long2,
        guest,
        r,
        &mut see2[..n2],
        &mut see3[..n3],
        &mut ws,
        &mut par,
    );
    let state = f.state;
    PairAnnounced {
        answer: answer(f.number, f.stood, a != route.addr),
        state,
    }
}
