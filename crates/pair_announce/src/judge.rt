// The judge of a party's announcement, up to the soundness of the box. 6, 7 and 8 follow on the party's side.
ghost use Rattle.chain.specs.List.{Scratch};
ghost use Rattle.pair.specs.Party.{party_of};
ghost use Rattle.pair.specs.PairLent.{pair_lent};
ghost use Rattle.pair_sound.specs.BoxTest.{Sight, BothSized};
ghost use Rattle.pair_announce.specs.Judged.{BoxJudged};

use pair::Pair;
use pair_sound::test::sound;
use routes::Route;
use routes::input::check_route;

// Where the sizes are right: what is wrong with the route alone (3, 4, 10), or 5, or 0. Then the owners as the party sees them
// are in `see2` and `see3`, the words of its routes and their chain in `ws` and `par`.
pub fn judge(
    t: Pair,
    list1: &[u8],
    first1: &[u16],
    long11: &[u16],
    list2: &[u8],
    first2: &[u16],
    long12: &[u16],
    second: &[u16],
    third: &[u16],
    own2: &[u32],
    own3: &[u32],
    long2: &[u16],
    guest: bool,
    r: Route,
    see2: &mut [u32],
    see3: &mut [u32],
    ws: &mut [u64],
    par: &mut [u16],
) -> u8
    requires both_sized { BothSized t.geometry (pair_lent list1.now first1.now long11.now list2.now first2.now long12.now
        second.now third.now own2.now own3.now long2.now) }
    requires sight { Sight own2.now own3.now see2.old see3.old }
    requires scratch { Scratch ws.old par.old }
    ensures { BoxJudged result (party_of guest) t
        (pair_lent list1.now first1.now long11.now list2.now first2.now long12.now
        second.now third.now own2.now own3.now long2.now) r
        see2.new see3.new ws.new par.new }
{
    if let Err(why) = check_route(r) {
        return why.number();
    }
    if !sound(
        t, guest, list1, first1, long11, list2, first2, long12, second, third, own2, own3, long2,
        see2, see3, ws, par,
    ) {
        return 5;
    }
    0
}
