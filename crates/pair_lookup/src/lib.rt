// A party's lookup in a box of two: the walk from a first cell of its own down to a leaf, which breaks off at a chunk of the
// other's.
#![tactic(auto)]

ghost use Rattle.std.specs.Prelude.{◌≡◌, ◌≤◌, length};
ghost use Rattle.sail.specs.Lent.{cells};
ghost use Rattle.sail.specs.Sizes.{Celled};
ghost use Rattle.sail.specs.Walk.{walk_said};
ghost use Rattle.sail.specs.Word.{Word};
ghost use Rattle.pair.specs.Party.{party_of, foreign};
ghost use Rattle.pair.specs.PairLent.{pair_lent, view_of};
ghost use Rattle.pair.specs.PairCalls.{opens_for, pair_lookup_said};
ghost use Rattle.pair_lookup.specs.Contract.{MeetsPairLookup};

use pair::Pair;
use pair_sizes::check_sizes;
use refusals::Refusal;
use routes::found::Found;
use sail::geometry::Geometry;
use sail_lookup::{cell, found_in, leaf, opens};

// Whether a chunk with this owner is the other's. `guest` is true for the second party.
pub fn foreign(o: u32, guest: bool) -> bool
    ensures { result ≡ foreign (party_of guest) o }
{
    if guest {
        if o == 0 {
            return false;
        }
        return o < 2147483648;
    }
    2147483648 <= o
}

// Whether a cell names one of a pool's chunks, and that is not the other's.
fn opens_to(v: u16, own: &[u32], guest: bool) -> bool
    ensures { result ≡ opens_for (party_of guest) own.now v }
{
    if !opens(v, own.len()) {
        return false;
    }
    let c = v as usize - 1;
    !foreign(own[c], guest)
}

// The walk, if the sizes are right. It answers with a word.
fn walk(
    g: Geometry,
    first: &[u16],
    second: &[u16],
    third: &[u16],
    own2: &[u32],
    own3: &[u32],
    guest: bool,
    addr: u32,
) -> u32
    requires { Celled g (cells first.now second.now third.now own2.now own3.now) }
    ensures { Word result (walk_said g (opens_for (party_of guest) own2.now) (opens_for (party_of guest) own3.now)
        (view_of (party_of guest) first.now second.now third.now own2.now own3.now) addr) }
{
    let p1 = g.p1;
    let p2 = g.p2;
    let v1 = first[(addr >> (32 - p1)) as usize];
    if 32768 <= v1 {
        return leaf(v1, 1);
    }
    if !opens_to(v1, own2, guest) {
        return 5;
    }
    let v2 = cell(second, own2.len(), v1, p2 - p1, addr >> (32 - p2));
    if 32768 <= v2 {
        return leaf(v2, 2);
    }
    if !opens_to(v2, own3, guest) {
        return 5;
    }
    let v3 = cell(third, own3.len(), v2, 32 - p2, addr);
    if 32768 <= v3 {
        return leaf(v3, 3);
    }
    5
}

// The party's lookup as a word: what other calls build on.
pub fn look(
    t: Pair,
    list1: &[u8],
    first1: &[u16],
    long11: &[u16],
    list2: &[u8],
    first2: &[u16],
    long12: &[u16],
    second: &[u16],
    third: &[u16],
    own2: &[u32],
    own3: &[u32],
    long2: &[u16],
    guest: bool,
    addr: u32,
) -> u32
    ensures { Word result (pair_lookup_said (party_of guest) t
        (pair_lent list1.now first1.now long11.now list2.now first2.now long12.now
        second.now third.now own2.now own3.now long2.now) addr) }
{
    if let Err(why) = check_sizes(
        t, list1, first1, long11, list2, first2, long12, second, third, own2, own3, long2,
    ) {
        return u32::from(why.number());
    }
    let g = t.geometry;
    if guest {
        return walk(g, first2, second, third, own2, own3, guest, addr);
    }
    walk(g, first1, second, third, own2, own3, guest, addr)
}

// The same as an answer.
pub fn lookup(
    t: Pair,
    list1: &[u8],
    first1: &[u16],
    long11: &[u16],
    list2: &[u8],
    first2: &[u16],
    long12: &[u16],
    second: &[u16],
    third: &[u16],
    own2: &[u32],
    own3: &[u32],
    long2: &[u16],
    guest: bool,
    addr: u32,
) -> Result<Found, Refusal>
    ensures { MeetsPairLookup (party_of guest) t
        (pair_lent list1.now first1.now long11.now list2.now first2.now long12.now
        second.now third.now own2.now own3.now long2.now) addr result }
{
    check_sizes(
        t, list1, first1, long11, list2, first2, long12, second, third, own2, own3, long2,
    )?;
    let g = t.geometry;
    if guest {
        return found_in(walk(g, first2, second, third, own2, own3, guest, addr)).ok_or(
            Refusal::Unsound,
        );
    }
    found_in(walk(g, first1, second, third, own2, own3, guest, addr)).ok_or(Refusal::Unsound)
}
