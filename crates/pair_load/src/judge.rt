// The judge of a party's load: sizes, soundness of the box, the input, and the party's own room and limits. Nothing is written.
ghost use Rattle.std.specs.Prelude.{◌≡◌};
ghost use Rattle.chain.specs.List.{Scratch};
ghost use Rattle.sail.specs.Geometry.{Valid};
ghost use Rattle.routes.specs.Said.{said_by};
ghost use Rattle.sail_theory.specs.After.{no_values};
ghost use Rattle.sail_need.specs.Weigh.{terms};
ghost use Rattle.pair.specs.Party.{party_of};
ghost use Rattle.pair.specs.PairLent.{pair_lent};
ghost use Rattle.pair.specs.PairSound.{share_of};
ghost use Rattle.pair.specs.PairCalls.{pair_load_said};
ghost use Rattle.pair_sound.specs.BoxTest.{Sight, BothSized};
ghost use Rattle.pair_load.specs.Told.{input_told, sound_told};

use input_check::input::check_input;
use pair::{Pair, Share};
use pair_sizes::check_sizes;
use pair_sound::test::sound;
use refusals::{Refusal, Refused};
use sail_need::weigh;

// The party's share.
fn share_of(t: Pair, guest: bool) -> Share
    ensures { result ≡ share_of (party_of guest) t }
{
    let one = t.one;
    let two = t.two;
    if guest {
        return two;
    }
    one
}

// What is said of the input: what is wrong with it, or 6, 7 or 8 by a room for records and the limits of a share.
fn judge_input(t: Pair, share: Share, room: usize, input: &[u8]) -> Result<(), Refused>
    requires { Valid t.geometry }
    ensures { said_by no_values result ≡ input_told (terms t.geometry room share.most2 share.most3) input.now }
{
    let n = check_input(input)?;
    weigh(
        t.geometry,
        input,
        n,
        room,
        share.most2 as usize,
        share.most3 as usize,
    )?;
    Ok(())
}

// Where the sizes are right; the rest is room for the test.
fn judge_sized(
    t: Pair,
    list1: &[u8],
    first1: &[u16],
    long11: &[u16],
    list2: &[u8],
    first2: &[u16],
    long12: &[u16],
    second: &[u16],
    third: &[u16],
    own2: &[u32],
    own3: &[u32],
    long2: &[u16],
    guest: bool,
    input: &[u8],
    see2: &mut [u32],
    see3: &mut [u32],
    ws: &mut [u64],
    par: &mut [u16],
) -> Result<(), Refused>
    requires both_sized { BothSized t.geometry (pair_lent list1.now first1.now long11.now list2.now first2.now long12.now
        second.now third.now own2.now own3.now long2.now) }
    requires sight { Sight own2.now own3.now see2.old see3.old }
    requires scratch { Scratch ws.old par.old }
    ensures { said_by no_values result ≡ sound_told (party_of guest) t
        (pair_lent list1.now first1.now long11.now list2.now first2.now long12.now
        second.now third.now own2.now own3.now long2.now) input.now }
{
    if !sound(
        t, guest, list1, first1, long11, list2, first2, long12, second, third, own2, own3, long2,
        see2, see3, ws, par,
    ) {
        return Err(Refusal::Unsound.into());
    }
    let share = share_of(t, guest);
    if guest {
        return judge_input(t, share, list2.len() / 8, input);
    }
    judge_input(t, share, list1.len() / 8, input)
}

// What load answers.
pub fn judge(
    t: Pair,
    list1: &[u8],
    first1: &[u16],
    long11: &[u16],
    list2: &[u8],
    first2: &[u16],
    long12: &[u16],
    second: &[u16],
    third: &[u16],
    own2: &[u32],
    own3: &[u32],
    long2: &[u16],
    guest: bool,
    input: &[u8],
) -> Result<(), Refused>
    ensures { said_by no_values result ≡ pair_load_said (party_of guest) t
        (pair_lent list1.now first1.now long11.now list2.now first2.now long12.now
        second.now third.now own2.now own3.now long2.now) input.now }
{
    check_sizes(
        t, list1, first1, long11, list2, first2, long12, second, third, own2, own3, long2,
    )?;
    let n2 = own2.len();
    let n3 = own3.len();
    let mut see2 = [0u32; 4096];
    let mut see3 = [0u32; 4096];
    let mut ws = [0u64; 4096];
    let mut par = [0u16; 4353];
    judge_sized(
        t,
        list1,
        first1,
        long11,
        list2,
        first2,
        long12,
        second,
        third,
        own2,
        own3,
        long2,
        guest,
        input,
        &mut see2[..n2],
        &mut see3[..n3],
        &mut ws,
        &mut par,
    )
}
