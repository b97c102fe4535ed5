// The judgement of a table, and the report: the route count and both needs. In a sound table as many chunks are in use as
// the routes need, so the owners are counted and no route is looked at again.
ghost use Rattle.std.specs.Prelude.{◌≡◌, ◌≤◌, length};
ghost use Rattle.refusals.specs.Numbers.{fault_of};
ghost use Rattle.sail.specs.Arrays.{lent_by};
ghost use Rattle.sail.specs.Sound.{used};
ghost use Rattle.sail_sound.specs.Report.{ReportJudged};
ghost use Rattle.sail_sound.specs.Contract.{MeetsReport};

use crate::test::sound;
use refusals::Refusal;
use sail::arrays::Arrays;
use sail::table::Table;
use sail_sizes::check_sizes;

// What is wrong with a table: the geometry (1), a size (2), or soundness (5).
pub fn check_table(t: Table, a: Arrays) -> Result<(), Refusal>
    ensures { ReportJudged (fault_of result) t (lent_by a.entry) }
{
    check_sizes(t, a)?;
    let mut ws = [0u64; 4096];
    let mut par = [0u16; 4353];
    if !sound(
        t, a.list, a.first, a.second, a.third, a.own2, a.own3, a.long1, a.long2, &mut ws, &mut par,
    ) {
        return Err(Refusal::Unsound);
    }
    Ok(())
}

// How many chunks are in use.
pub fn in_use(own: &[u32]) -> u32
    requires { length own.now ≤ 4096 }
    ensures { result ≡ used own.now }
{
    let mut n: u32 = 0;
    for o in own {
        if *o != 0 {
            n += 1;
        }
    }
    n
}

// What the report says: the route count and the needs for second and third chunks.
#[derive(Clone, Copy, Debug, PartialEq, Eq)]
pub struct Standing {
    pub routes: u32,
    pub second: u32,
    pub third: u32,
}

pub fn report(t: Table, a: Arrays) -> Result<Standing, Refusal>
    ensures { MeetsReport t (lent_by a.entry) result }
{
    check_table(t, a)?;
    Ok(Standing {
        routes: t.count,
        second: in_use(a.own2),
        third: in_use(a.own3),
    })
}
