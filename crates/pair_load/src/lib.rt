// Load in a box of two: a party's table is loaded from a record input, and nothing of the other's is touched.
#![tactic(auto)]

ghost use Rattle.pair.specs.Party.{party_of};
ghost use Rattle.pair.specs.PairLent.{pair_lent};
ghost use Rattle.pair_load.specs.Contract.{MeetsPairLoad};

pub mod judge;
pub mod side;

use crate::judge::judge;
use crate::side::load_side;
use pair::Pair;
use pair_state::with_count;
use refusals::Refused;

// The party's routes become those of a record input: as withdrawing all of them, and then each announcement in order. `guest`
// tells whether the party is the second. A refusal leaves the state and all that is lent as they were.
pub fn load(
    t: Pair,
    list1: &mut [u8],
    first1: &mut [u16],
    long11: &mut [u16],
    list2: &mut [u8],
    first2: &mut [u16],
    long12: &mut [u16],
    second: &mut [u16],
    third: &mut [u16],
    own2: &mut [u32],
    own3: &mut [u32],
    long2: &mut [u16],
    guest: bool,
    input: &[u8],
) -> Result<Pair, Refused>
    ensures { MeetsPairLoad (party_of guest) t
        (pair_lent list1.old first1.old long11.old list2.old first2.old long12.old
        second.old third.old own2.old own3.old long2.old) input.now result
        (pair_lent list1.new first1.new long11.new list2.new first2.new long12.new
        second.new third.new own2.new own3.new long2.new) }
{
    judge(
        t, list1, first1, long11, list2, first2, long12, second, third, own2, own3, long2, guest,
        input,
    )?;
    let state = with_count(t, guest, (input.len() / 8) as u32);
    if guest {
        load_side(
            t, list2, first2, long12, second, third, own2, own3, long2, true, input,
        );
        return Ok(state);
    }
    load_side(
        t, list1, first1, long11, second, third, own2, own3, long2, false, input,
    );
    Ok(state)
}
