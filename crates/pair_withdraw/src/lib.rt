// Withdraw in a box of two: a party's route is taken out, and nothing of the other's is touched.
#![tactic(auto)]

ghost use Rattle.chain.specs.List.{Scratch};
ghost use Rattle.routes.specs.Route.{Prefix};
ghost use Rattle.pair.specs.Party.{party_of};
ghost use Rattle.pair.specs.PairLent.{pair_lent};
ghost use Rattle.pair_sound.specs.BoxTest.{Sight, BothSized};
ghost use Rattle.pair_withdraw.specs.Contract.{MeetsPairTake, MeetsPairWithdraw};

pub mod answers;
pub mod owners;
pub mod side;

use crate::answers::PairWithdrawn;
use crate::side::{PairTaken, withdraw_sound};
use pair::Pair;
use pair_sizes::check_sizes;
use pair_sound::test::sound;
use routes::input;
use routes::prefix::clear_after;
use sail_withdraw::answers::Withdraw;

// The withdrawal of a prefix from a box of the right sizes: 5 where the box is not sound, and else as its party's side has it.
// The rest is room for the test.
fn withdraw_sized(
    t: Pair,
    list1: &mut [u8],
    first1: &mut [u16],
    long11: &mut [u16],
    list2: &mut [u8],
    first2: &mut [u16],
    long12: &mut [u16],
    second: &mut [u16],
    third: &mut [u16],
    own2: &mut [u32],
    own3: &mut [u32],
    long2: &mut [u16],
    guest: bool,
    addr: u32,
    len: u8,
    see2: &mut [u32],
    see3: &mut [u32],
    ws: &mut [u64],
    par: &mut [u16],
) -> PairTaken
    requires both_sized { BothSized t.geometry (pair_lent list1.old first1.old long11.old list2.old first2.old long12.old
        second.old third.old own2.old own3.old long2.old) }
    requires prefix { Prefix addr len }
    requires sight { Sight own2.old own3.old see2.old see3.old }
    requires scratch { Scratch ws.old par.old }
    ensures { MeetsPairTake (party_of guest) t
        (pair_lent list1.old first1.old long11.old list2.old first2.old long12.old
        second.old third.old own2.old own3.old long2.old) addr len result
        (pair_lent list1.new first1.new long11.new list2.new first2.new long12.new
        second.new third.new own2.new own3.new long2.new) }
{
    if !sound(
        t, guest, list1, first1, long11, list2, first2, long12, second, third, own2, own3, long2,
        see2, see3, ws, par,
    ) {
        return PairTaken {
            number: 5,
            state: t,
        };
    }
    if guest {
        return withdraw_sound(
            t, list2, first2, long12, second, third, own2, own3, long2, guest, addr, len, see2,
            see3, ws, par,
        );
    }
    withdraw_sound(
        t, list1, first1, long11, second, third, own2, own3, long2, guest, addr, len, see2, see3,
        ws, par,
    )
}

// Takes the party's route of the prefix of len bits of addr out of its table, and closes the chunks that it no longer needs.
// `guest` tells whether the party is the second. Bits of addr after the length are cleared first, and an accepted answer says
// whether any were. A refusal leaves the state and all that is lent as they were.
pub fn withdraw(
    t: Pair,
    list1: &mut [u8],
    first1: &mut [u16],
    long11: &mut [u16],
    list2: &mut [u8],
    first2: &mut [u16],
    long12: &mut [u16],
    second: &mut [u16],
    third: &mut [u16],
    own2: &mut [u32],
    own3: &mut [u32],
    long2: &mut [u16],
    guest: bool,
    addr: u32,
    len: u8,
) -> PairWithdrawn
    ensures { MeetsPairWithdraw (party_of guest) t
        (pair_lent list1.old first1.old long11.old list2.old first2.old long12.old
        second.old third.old own2.old own3.old long2.old) addr len result
        (pair_lent list1.new first1.new long11.new list2.new first2.new long12.new
        second.new third.new own2.new own3.new long2.new) }
{
    let a = clear_after(addr, len);
    if let Err(why) = check_sizes(
        t, list1, first1, long11, list2, first2, long12, second, third, own2, own3, long2,
    ) {
        return PairWithdrawn {
            answer: Withdraw::Refused(why.number()),
            state: t,
        };
    }
    if !input::prefix_ok(a, len) {
        return PairWithdrawn {
            answer: Withdraw::Refused(3),
            state: t,
        };
    }
    let n2 = own2.len();
    let n3 = own3.len();
    let mut see2 = [0u32; 4096];
    let mut see3 = [0u32; 4096];
    let mut ws = [0u64; 4096];
    let mut par = [0u16; 4353];
    let r = withdraw_sized(
        t,
        list1,
        first1,
        long11,
        list2,
        first2,
        long12,
        second,
        third,
        own2,
        own3,
        long2,
        guest,
        a,
        len,
        &mut see2[..n2],
        &mut see3[..n3],
        &mut ws,
        &mut par,
    );
    let state = r.state;
    if r.number != 0 {
        return PairWithdrawn {
            answer: Withdraw::Refused(r.number),
            state,
        };
    }
    PairWithdrawn {
        answer: Withdraw::Removed(a != addr),
        state,
    }
}
