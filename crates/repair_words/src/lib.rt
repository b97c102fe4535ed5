// A repair that answers with a number, and tells what it did in four words beside it. Geometry, sizes and words are judged before
// anything is written.
#![tactic(auto)]

ghost use Rattle.std.specs.Prelude.{◌≡◌};
ghost use Rattle.sail.specs.Lent.{lent};
ghost use Rattle.repair_words.specs.Repairs.{repair_card, repair_out};

use packing_repairs::{check_words, repaired, tell};
use repair::repair::repair;
use sail::arrays::Arrays;
use sail::table::Table;
use sail_sizes::check_sizes;

// What is kept of the list is loaded. Into four words: the records dropped, and the first, second and third cells that differ from
// before.
pub fn repair_told(
    t: Table,
    list: &mut [u8],
    first: &mut [u16],
    second: &mut [u16],
    third: &mut [u16],
    own2: &mut [u32],
    own3: &mut [u32],
    long1: &mut [u16],
    long2: &mut [u16],
    out: &mut [u32],
) -> u64
    ensures { repair_card result (lent list.new first.new second.new third.new own2.new
        own3.new long1.new long2.new) out.new
        ≡ repair_out t
        (lent list.old first.old second.old third.old own2.old own3.old
        long1.old long2.old) out.old }
{
    let arrays = Arrays {
        list,
        first,
        second,
        third,
        own2,
        own3,
        long1,
        long2,
    };
    if let Err(why) = check_words(check_sizes(t, arrays), out.len()) {
        return u64::from(why.number());
    }
    let c = repair(t, list, first, second, third, own2, own3, long1, long2);
    let u = c.table;
    let n = u.count;
    let a = c.answer;
    tell(a, out);
    repaired(a, n)
}
