// A party's report on a box of two: its route count and both its needs. In a sound box a party uses as many chunks as its routes
// need, so the owners that it sees are counted, and no route is looked at again.
#![tactic(auto)]

ghost use Rattle.std.specs.Prelude.{◌≡◌};
ghost use Rattle.chain.specs.List.{Scratch};
ghost use Rattle.sail_sound.specs.Report.{means_reported};
ghost use Rattle.pair.specs.Party.{party_of};
ghost use Rattle.pair.specs.PairLent.{pair_lent};
ghost use Rattle.pair.specs.PairSound.{share_of};
ghost use Rattle.pair_sound.specs.BoxTest.{Sight, BothSized};
ghost use Rattle.pair_report.specs.Contract.{MeetsPairReport};
ghost use Rattle.pair_report.specs.Told.{sound_told};

use pair::Pair;
use pair_sizes::check_sizes;
use pair_sound::test::sound;
use refusals::Refusal;
use sail_sound::report::{Standing, in_use};

// How many routes the party has.
pub fn count(t: Pair, guest: bool) -> u32
    ensures { result ≡ (share_of (party_of guest) t).count }
{
    let one = t.one;
    let two = t.two;
    if guest {
        return two.count;
    }
    one.count
}

// If the sizes are right; the rest is room for the test.
fn report_sized(
    t: Pair,
    guest: bool,
    list1: &[u8],
    first1: &[u16],
    long11: &[u16],
    list2: &[u8],
    first2: &[u16],
    long12: &[u16],
    second: &[u16],
    third: &[u16],
    own2: &[u32],
    own3: &[u32],
    long2: &[u16],
    see2: &mut [u32],
    see3: &mut [u32],
    ws: &mut [u64],
    par: &mut [u16],
) -> Result<Standing, Refusal>
    requires both_sized { BothSized t.geometry (pair_lent list1.now first1.now long11.now list2.now first2.now long12.now
        second.now third.now own2.now own3.now long2.now) }
    requires sight { Sight own2.now own3.now see2.old see3.old }
    requires scratch { Scratch ws.old par.old }
    ensures { means_reported result ≡ sound_told (party_of guest) t
        (pair_lent list1.now first1.now long11.now list2.now first2.now long12.now
        second.now third.now own2.now own3.now long2.now) }
{
    if !sound(
        t, guest, list1, first1, long11, list2, first2, long12, second, third, own2, own3, long2,
        see2, see3, ws, par,
    ) {
        return Err(Refusal::Unsound);
    }
    Ok(Standing {
        routes: count(t, guest),
        second: in_use(see2),
        third: in_use(see3),
    })
}

// The report of the party. `guest` is true for the second.
pub fn report(
    t: Pair,
    list1: &[u8],
    first1: &[u16],
    long11: &[u16],
    list2: &[u8],
    first2: &[u16],
    long12: &[u16],
    second: &[u16],
    third: &[u16],
    own2: &[u32],
    own3: &[u32],
    long2: &[u16],
    guest: bool,
) -> Result<Standing, Refusal>
    ensures { MeetsPairReport (party_of guest) t
        (pair_lent list1.now first1.now long11.now list2.now first2.now long12.now
        second.now third.now own2.now own3.now long2.now) result }
{
    check_sizes(
        t, list1, first1, long11, list2, first2, long12, second, third, own2, own3, long2,
    )?;
    let n2 = own2.len();
    let n3 = own3.len();
    let mut see2 = [0u32; 4096];
    let mut see3 = [0u32; 4096];
    let mut ws = [0u64; 4096];
    let mut par = [0u16; 4353];
    report_sized(
        t,
        guest,
        list1,
        first1,
        long11,
        list2,
        first2,
        long12,
        second,
        third,
        own2,
        own3,
        long2,
        &mut see2[..n2],
        &mut see3[..n3],
        &mut ws,
        &mut par,
    )
}
