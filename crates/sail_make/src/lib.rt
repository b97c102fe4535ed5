// Make: a fresh table.
#![tactic(auto)]

ghost use Rattle.std.specs.Prelude.{◌≡◌};
ghost use Rattle.sail.specs.Lent.{lent};
ghost use Rattle.sail.specs.Sound.{fresh_lent};
ghost use Rattle.sail_make.specs.Contract.{MeetsMake};

use refusals::Refusal;
use sail::arrays::Arrays;
use sail::table::Table;
use sail_sizes::check_sizes;

// Every first cell a leaf of hop 0, and zeros everywhere else.
pub fn blank(
    list: &mut [u8],
    first: &mut [u16],
    second: &mut [u16],
    third: &mut [u16],
    own2: &mut [u32],
    own3: &mut [u32],
    long1: &mut [u16],
    long2: &mut [u16],
)
    ensures { lent list.new first.new second.new third.new own2.new
        own3.new long1.new long2.new ≡ fresh_lent
        (lent list.old first.old second.old third.old own2.old own3.old
        long1.old long2.old) }
{
    list.fill(0);
    first.fill(32768);
    second.fill(0);
    third.fill(0);
    own2.fill(0);
    own3.fill(0);
    long1.fill(0);
    long2.fill(0);
}

// A table with no routes, of the state's geometry. Nothing else of the old table is read.
pub fn make(
    t: Table,
    list: &mut [u8],
    first: &mut [u16],
    second: &mut [u16],
    third: &mut [u16],
    own2: &mut [u32],
    own3: &mut [u32],
    long1: &mut [u16],
    long2: &mut [u16],
) -> Result<Table, Refusal>
    ensures { MeetsMake t (lent list.old first.old second.old third.old
        own2.old own3.old long1.old long2.old) result
        (lent list.new first.new second.new third.new own2.new own3.new
        long1.new long2.new) }
{
    check_sizes(
        t,
        Arrays {
            list,
            first,
            second,
            third,
            own2,
            own3,
            long1,
            long2,
        },
    )?;
    blank(list, first, second, third, own2, own3, long1, long2);
    Ok(Table { count: 0, ..t })
}
