// A table loaded from a record input.
ghost use Rattle.std.specs.Prelude.{◌≡◌};
ghost use Rattle.routes.specs.Said.{said_by};
ghost use Rattle.sail.specs.Arrays.{lent_by};
ghost use Rattle.sail.specs.Lent.{lent};
ghost use Rattle.sail_theory.specs.After.{no_values};
ghost use Rattle.sail_theory.specs.Calls.{load_said};
ghost use Rattle.sail_load.specs.Contract.{MeetsLoad};

use input_check::input::check_input;
use refusals::Refused;
use sail::arrays::Arrays;
use sail::table::Table;
use sail_need::weigh;
use sail_renew::write_table;
use sail_sizes::check_sizes;

// Whether load accepts the input. Nothing is written, and nothing is read of the old table but its geometry and its sizes.
fn judge(t: Table, input: &[u8], a: Arrays) -> Result<(), Refused>
    ensures { said_by no_values result ≡ load_said t (lent_by a.entry) input.now }
{
    check_sizes(t, a)?;
    let n = check_input(input)?;
    weigh(
        t.geometry,
        input,
        n,
        a.list.len() / 8,
        a.own2.len(),
        a.own3.len(),
    )?;
    Ok(())
}

// The routes of a record input, whatever the table held before: as make and then each announcement in order.
pub fn load(
    t: Table,
    input: &[u8],
    list: &mut [u8],
    first: &mut [u16],
    second: &mut [u16],
    third: &mut [u16],
    own2: &mut [u32],
    own3: &mut [u32],
    long1: &mut [u16],
    long2: &mut [u16],
) -> Result<Table, Refused>
    ensures { MeetsLoad t (lent list.old first.old second.old third.old
        own2.old own3.old long1.old long2.old) input.now result
        (lent list.new first.new second.new third.new own2.new own3.new
        long1.new long2.new) }
{
    judge(
        t,
        input,
        Arrays {
            list,
            first,
            second,
            third,
            own2,
            own3,
            long1,
            long2,
        },
    )?;
    write_table(
        t, input, list, first, second, third, own2, own3, long1, long2,
    );
    let count = (input.len() / 8) as u32;
    Ok(Table { count, ..t })
}
