// A table put right after a memory fault.
ghost use Rattle.std.specs.Prelude.{◌≡◌};
ghost use Rattle.sail.specs.Lent.{lent};
ghost use Rattle.sail_words.specs.Lookups.{table_of};
ghost use Rattle.repair_words.specs.Repairs.{repair_card, repair_out};

use repair_words::repair_told;
use sail::geometry::Geometry;
use sail::table::Table;

// What is kept of the list is loaded. Into four words: the records dropped, and the first, second and third cells that differ from
// before.
#[unsafe(no_mangle)]
pub extern "C" fn gh_repair(
    p1: u32,
    p2: u32,
    count: u32,
    list: &mut [u8],
    first: &mut [u16],
    second: &mut [u16],
    third: &mut [u16],
    own2: &mut [u32],
    own3: &mut [u32],
    long1: &mut [u16],
    long2: &mut [u16],
    out: &mut [u32],
) -> u64
    ensures { repair_card result (lent list.new first.new second.new third.new own2.new
        own3.new long1.new long2.new) out.new
        ≡ repair_out (table_of p1 p2 count)
        (lent list.old first.old second.old third.old own2.old own3.old
        long1.old long2.old) out.old }
{
    let geometry = Geometry { p1, p2 };
    repair_told(
        Table { geometry, count },
        list,
        first,
        second,
        third,
        own2,
        own3,
        long1,
        long2,
        out,
    )
}
