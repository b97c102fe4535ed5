// The calls on a box of two parties. The state is eight numbers: both levels of the geometry, either party's route count, and its
// limits of second and of third chunks. Party 0 is the first, any other number the second.
ghost use Rattle.std.specs.Prelude.{◌≡◌};
ghost use Rattle.sail.specs.Word.{pack_found};
ghost use Rattle.sail_theory.specs.Calls.{route};
ghost use Rattle.packing.specs.Pack.{pack_report};
ghost use Rattle.packets.specs.Contract.{MeetsPairStep};
ghost use Rattle.pair.specs.Party.{one, party_of};
ghost use Rattle.pair.specs.PairLent.{pair_lent};
ghost use Rattle.pair.specs.PairCalls.{pair_made, pair_announced, pair_withdrawn, pair_loaded, pair_reported, pair_lookup_said};
ghost use Rattle.cards.specs.Pairs.{pair_card, pair_card_of, pair_state_of, party_at};

use bits::narrow::{narrow8, narrow16};
use pair::{Pair, Share};
use pair_report::count;
use routes::Route;
use sail::geometry::Geometry;

// The state by its numbers.
fn state(
    p1: u32,
    p2: u32,
    count_one: u32,
    count_two: u32,
    most2_one: u32,
    most3_one: u32,
    most2_two: u32,
    most3_two: u32,
) -> Pair
    ensures { result ≡ pair_state_of p1 p2 count_one count_two most2_one most3_one most2_two most3_two }
{
    Pair {
        geometry: Geometry { p1, p2 },
        one: Share {
            count: count_one,
            most2: most2_one,
            most3: most3_one,
        },
        two: Share {
            count: count_two,
            most2: most2_two,
            most3: most3_two,
        },
    }
}

// Whether the party is the second.
fn is_second(party: u32) -> bool
    ensures { party_of result ≡ party_at party }
{
    party != 0
}

// A fresh box of this geometry and these limits.
#[unsafe(no_mangle)]
pub extern "C" fn gh_pair_make(
    p1: u32,
    p2: u32,
    most2_one: u32,
    most3_one: u32,
    most2_two: u32,
    most3_two: u32,
    list1: &mut [u8],
    first1: &mut [u16],
    long11: &mut [u16],
    list2: &mut [u8],
    first2: &mut [u16],
    long12: &mut [u16],
    second: &mut [u16],
    third: &mut [u16],
    own2: &mut [u32],
    own3: &mut [u32],
    long2: &mut [u16],
) -> u64
    ensures { pair_card result
        (pair_lent list1.new first1.new long11.new list2.new first2.new long12.new
        second.new third.new own2.new own3.new long2.new)
        ≡ pair_card_of one (pair_made (pair_state_of p1 p2 0 0 most2_one most3_one most2_two most3_two)
        (pair_lent list1.old first1.old long11.old list2.old first2.old long12.old
        second.old third.old own2.old own3.old long2.old)) }
{
    let t = state(p1, p2, 0, 0, most2_one, most3_one, most2_two, most3_two);
    let made = pair_make::make(
        t, list1, first1, long11, list2, first2, long12, second, third, own2, own3, long2,
    );
    let n = count(made.unwrap_or(t), false);
    packing_tables::made(made, n)
}

// The party's routes become those of the input, if the box is sound.
#[unsafe(no_mangle)]
pub extern "C" fn gh_pair_load(
    p1: u32,
    p2: u32,
    count_one: u32,
    count_two: u32,
    most2_one: u32,
    most3_one: u32,
    most2_two: u32,
    most3_two: u32,
    list1: &mut [u8],
    first1: &mut [u16],
    long11: &mut [u16],
    list2: &mut [u8],
    first2: &mut [u16],
    long12: &mut [u16],
    second: &mut [u16],
    third: &mut [u16],
    own2: &mut [u32],
    own3: &mut [u32],
    long2: &mut [u16],
    party: u32,
    input: &[u8],
) -> u64
    ensures { pair_card result
        (pair_lent list1.new first1.new long11.new list2.new first2.new long12.new
        second.new third.new own2.new own3.new long2.new)
        ≡ pair_card_of (party_at party) (pair_loaded (party_at party) (pair_state_of p1 p2 count_one count_two most2_one most3_one most2_two most3_two)
        (pair_lent list1.old first1.old long11.old list2.old first2.old long12.old
        second.old third.old own2.old own3.old long2.old) input.now) }
{
    let guest = is_second(party);
    let t = state(
        p1, p2, count_one, count_two, most2_one, most3_one, most2_two, most3_two,
    );
    let loaded = pair_load::load(
        t, list1, first1, long11, list2, first2, long12, second, third, own2, own3, long2, guest,
        input,
    );
    let n = count(loaded.unwrap_or(t), guest);
    packing_tables::loaded(loaded, n)
}

// A route is added to the party's, or replaces the hop and the mark of its prefix.
#[unsafe(no_mangle)]
pub extern "C" fn gh_pair_announce(
    p1: u32,
    p2: u32,
    count_one: u32,
    count_two: u32,
    most2_one: u32,
    most3_one: u32,
    most2_two: u32,
    most3_two: u32,
    list1: &mut [u8],
    first1: &mut [u16],
    long11: &mut [u16],
    list2: &mut [u8],
    first2: &mut [u16],
    long12: &mut [u16],
    second: &mut [u16],
    third: &mut [u16],
    own2: &mut [u32],
    own3: &mut [u32],
    long2: &mut [u16],
    party: u32,
    addr: u32,
    len: u32,
    hop: u32,
    mark: u32,
) -> u64
    ensures { pair_card result
        (pair_lent list1.new first1.new long11.new list2.new first2.new long12.new
        second.new third.new own2.new own3.new long2.new)
        ≡ pair_card_of (party_at party) (pair_announced (party_at party) (pair_state_of p1 p2 count_one count_two most2_one most3_one most2_two most3_two)
        (pair_lent list1.old first1.old long11.old list2.old first2.old long12.old
        second.old third.old own2.old own3.old long2.old) (route addr len hop mark)) }
{
    let guest = is_second(party);
    let c = pair_announce::announce(
        state(
            p1, p2, count_one, count_two, most2_one, most3_one, most2_two, most3_two,
        ),
        list1,
        first1,
        long11,
        list2,
        first2,
        long12,
        second,
        third,
        own2,
        own3,
        long2,
        guest,
        Route {
            addr,
            len: narrow8(len),
            mark: narrow8(mark),
            hop: narrow16(hop),
        },
    );
    let s = c.state;
    let n = count(s, guest);
    let a = c.answer;
    packing_tables::announced(a, n)
}

// A route of the party's is withdrawn.
#[unsafe(no_mangle)]
pub extern "C" fn gh_pair_withdraw(
    p1: u32,
    p2: u32,
    count_one: u32,
    count_two: u32,
    most2_one: u32,
    most3_one: u32,
    most2_two: u32,
    most3_two: u32,
    list1: &mut [u8],
    first1: &mut [u16],
    long11: &mut [u16],
    list2: &mut [u8],
    first2: &mut [u16],
    long12: &mut [u16],
    second: &mut [u16],
    third: &mut [u16],
    own2: &mut [u32],
    own3: &mut [u32],
    long2: &mut [u16],
    party: u32,
    addr: u32,
    len: u32,
) -> u64
    ensures { pair_card result
        (pair_lent list1.new first1.new long11.new list2.new first2.new long12.new
        second.new third.new own2.new own3.new long2.new)
        ≡ pair_card_of (party_at party) (pair_withdrawn (party_at party) (pair_state_of p1 p2 count_one count_two most2_one most3_one most2_two most3_two)
        (pair_lent list1.old first1.old long11.old list2.old first2.old long12.old
        second.old third.old own2.old own3.old long2.old) addr len) }
{
    let guest = is_second(party);
    let c = pair_withdraw::withdraw(
        state(
            p1, p2, count_one, count_two, most2_one, most3_one, most2_two, most3_two,
        ),
        list1,
        first1,
        long11,
        list2,
        first2,
        long12,
        second,
        third,
        own2,
        own3,
        long2,
        guest,
        addr,
        narrow8(len),
    );
    let s = c.state;
    let n = count(s, guest);
    let a = c.answer;
    packing_tables::withdrawn(a, n)
}

// The party's route count and both its needs.
#[unsafe(no_mangle)]
pub extern "C" fn gh_pair_report(
    p1: u32,
    p2: u32,
    count_one: u32,
    count_two: u32,
    most2_one: u32,
    most3_one: u32,
    most2_two: u32,
    most3_two: u32,
    list1: &[u8],
    first1: &[u16],
    long11: &[u16],
    list2: &[u8],
    first2: &[u16],
    long12: &[u16],
    second: &[u16],
    third: &[u16],
    own2: &[u32],
    own3: &[u32],
    long2: &[u16],
    party: u32,
) -> u64
    ensures { result ≡ pack_report (pair_reported (party_at party) (pair_state_of p1 p2 count_one count_two most2_one most3_one most2_two most3_two)
        (pair_lent list1.now first1.now long11.now list2.now first2.now long12.now
        second.now third.now own2.now own3.now long2.now)) }
{
    packing_tables::reported(pair_report::report(
        state(
            p1, p2, count_one, count_two, most2_one, most3_one, most2_two, most3_two,
        ),
        list1,
        first1,
        long11,
        list2,
        first2,
        long12,
        second,
        third,
        own2,
        own3,
        long2,
        is_second(party),
    ))
}

// The hop for one address of the party's, with the count of cells read.
#[unsafe(no_mangle)]
pub extern "C" fn gh_pair_lookup(
    p1: u32,
    p2: u32,
    count_one: u32,
    count_two: u32,
    most2_one: u32,
    most3_one: u32,
    most2_two: u32,
    most3_two: u32,
    list1: &[u8],
    first1: &[u16],
    long11: &[u16],
    list2: &[u8],
    first2: &[u16],
    long12: &[u16],
    second: &[u16],
    third: &[u16],
    own2: &[u32],
    own3: &[u32],
    long2: &[u16],
    party: u32,
    addr: u32,
) -> u64
    ensures { result ≡ pack_found (pair_lookup_said (party_at party) (pair_state_of p1 p2 count_one count_two most2_one most3_one most2_two most3_two)
        (pair_lent list1.now first1.now long11.now list2.now first2.now long12.now
        second.now third.now own2.now own3.now long2.now) addr) }
{
    pair_lookup::look(
        state(
            p1, p2, count_one, count_two, most2_one, most3_one, most2_two, most3_two,
        ),
        list1,
        first1,
        long11,
        list2,
        first2,
        long12,
        second,
        third,
        own2,
        own3,
        long2,
        is_second(party),
        addr,
    ) as u64
}

// A packet's header is checked and its destination looked up in the party's table; with a hop its time to live is lowered and its
// checksum mended.
#[unsafe(no_mangle)]
pub extern "C" fn gh_pair_step(
    p1: u32,
    p2: u32,
    count_one: u32,
    count_two: u32,
    most2_one: u32,
    most3_one: u32,
    most2_two: u32,
    most3_two: u32,
    list1: &[u8],
    first1: &[u16],
    long11: &[u16],
    list2: &[u8],
    first2: &[u16],
    long12: &[u16],
    second: &[u16],
    third: &[u16],
    own2: &[u32],
    own3: &[u32],
    long2: &[u16],
    party: u32,
    packet: &mut [u8],
) -> u64
    ensures { MeetsPairStep (party_at party) (pair_state_of p1 p2 count_one count_two most2_one most3_one most2_two most3_two)
        (pair_lent list1.now first1.now long11.now list2.now first2.now long12.now
        second.now third.now own2.now own3.now long2.now) packet.old result
        packet.new }
{
    packets::pairs::step(
        state(
            p1, p2, count_one, count_two, most2_one, most3_one, most2_two, most3_two,
        ),
        list1,
        first1,
        long11,
        list2,
        first2,
        long12,
        second,
        third,
        own2,
        own3,
        long2,
        is_second(party),
        packet,
    )
}
