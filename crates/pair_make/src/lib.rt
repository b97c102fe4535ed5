// Make for two parties: a fresh box.
#![tactic(auto)]

ghost use Rattle.std.specs.Prelude.{◌≡◌};
ghost use Rattle.pair.specs.PairLent.{pair_lent};
ghost use Rattle.pair.specs.PairCalls.{fresh_pair_lent};
ghost use Rattle.pair_make.specs.Contract.{MeetsPairMake};

use pair::{Pair, Share};
use pair_sizes::check_sizes;
use pair_sound::test::limits_ok;
use refusals::Refusal;

// Every first cell of both a leaf of hop 0, and zeros everywhere else.
fn blank(
    list1: &mut [u8],
    first1: &mut [u16],
    long11: &mut [u16],
    list2: &mut [u8],
    first2: &mut [u16],
    long12: &mut [u16],
    second: &mut [u16],
    third: &mut [u16],
    own2: &mut [u32],
    own3: &mut [u32],
    long2: &mut [u16],
)
    ensures { pair_lent list1.new first1.new long11.new list2.new first2.new
        long12.new second.new third.new own2.new own3.new long2.new ≡ fresh_pair_lent
        (pair_lent list1.old first1.old long11.old list2.old first2.old long12.old
        second.old third.old own2.old own3.old long2.old) }
{
    sail_make::blank(list1, first1, second, third, own2, own3, long11, long2);
    list2.fill(0);
    first2.fill(32768);
    long12.fill(0);
}

// A box with no routes, of the state's geometry and limits. The counts of the state are not read.
pub fn make(
    t: Pair,
    list1: &mut [u8],
    first1: &mut [u16],
    long11: &mut [u16],
    list2: &mut [u8],
    first2: &mut [u16],
    long12: &mut [u16],
    second: &mut [u16],
    third: &mut [u16],
    own2: &mut [u32],
    own3: &mut [u32],
    long2: &mut [u16],
) -> Result<Pair, Refusal>
    ensures { MeetsPairMake t
        (pair_lent list1.old first1.old long11.old list2.old first2.old long12.old
        second.old third.old own2.old own3.old long2.old) result
        (pair_lent list1.new first1.new long11.new list2.new first2.new long12.new
        second.new third.new own2.new own3.new long2.new) }
{
    check_sizes(
        t, list1, first1, long11, list2, first2, long12, second, third, own2, own3, long2,
    )?;
    if !limits_ok(t, own2.len(), own3.len()) {
        return Err(Refusal::Limits);
    }
    blank(
        list1, first1, long11, list2, first2, long12, second, third, own2, own3, long2,
    );
    Ok(Pair {
        geometry: t.geometry,
        one: Share { count: 0, ..t.one },
        two: Share { count: 0, ..t.two },
    })
}
