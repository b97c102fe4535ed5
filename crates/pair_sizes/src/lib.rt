// Whether what is lent for two parties has the sizes that the geometry asks for.
#![tactic(auto)]

ghost use Rattle.refusals.specs.Numbers.{fault_of};
ghost use Rattle.pair.specs.PairLent.{pair_lent};
ghost use Rattle.pair.specs.PairSound.{PairSizesTold};

use pair::Pair;
use refusals::Refusal;
use sail::arrays::Arrays;
use sail::table::Table;

// 1 where the geometry is outside the limits, 2 where an array lent to the first party or to the second has another size than it
// asks for.
pub fn check_sizes(
    t: Pair,
    list1: &[u8],
    first1: &[u16],
    long11: &[u16],
    list2: &[u8],
    first2: &[u16],
    long12: &[u16],
    second: &[u16],
    third: &[u16],
    own2: &[u32],
    own3: &[u32],
    long2: &[u16],
) -> Result<(), Refusal>
    ensures { PairSizesTold (fault_of result) t.geometry
        (pair_lent list1.now first1.now long11.now list2.now first2.now long12.now
        second.now third.now own2.now own3.now long2.now) }
{
    let geometry = t.geometry;
    let bare = Table { geometry, count: 0 };
    let one = Arrays {
        list: list1,
        first: first1,
        second,
        third,
        own2,
        own3,
        long1: long11,
        long2,
    };
    let two = Arrays {
        list: list2,
        first: first2,
        second,
        third,
        own2,
        own3,
        long1: long12,
        long2,
    };
    sail_sizes::check_sizes(bare, one)?;
    sail_sizes::check_sizes(bare, two)
}
