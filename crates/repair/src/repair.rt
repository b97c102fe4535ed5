// A table put right after a memory fault: what is kept of its list is loaded.
ghost use Rattle.std.specs.Prelude.{◌≡◌};
ghost use Rattle.routes.specs.Said.{accepted};
ghost use Rattle.sail.specs.Lent.{lent};
ghost use Rattle.repair.specs.Answers.{means_repaired};
ghost use Rattle.repair.specs.Contract.{MeetsRepair};
ghost use Rattle.repair.specs.Told.{Small, numbers};

use repair_differs::count_cells;
use repair_judge::{Kept, judge};
use repair_levels::Differs;
use sail::arrays::Arrays;
use sail::table::Table;
use sail_load::load::load;

// Put right, with the records dropped and the cells of each array that differ from before; or a refusal's number.
#[derive(Clone, Copy)]
pub enum Repaired {
    Done {
        dropped: u32,
        first: u32,
        second: u32,
        third: u32,
    },
    Refused(u8),
}

// The answer, and the state beside it.
#[derive(Clone, Copy)]
pub struct RepairedTable {
    pub answer: Repaired,
    pub table: Table,
}

// The four numbers that are told.
fn done(j: Kept, d: Differs) -> Repaired
    requires { Small j d }
    ensures { means_repaired result ≡ accepted (numbers j d) }
{
    let dropped = (j.looked - j.kept) as u32;
    let first = d.first as u32;
    let second = d.second as u32;
    let third = d.third as u32;
    Repaired::Done {
        dropped,
        first,
        second,
        third,
    }
}

// Keeps each record of the list that is valid and larger than the last one kept, loads what was kept, and says how many records
// were dropped and how many cells of each array differ from before. The table may hold anything. A refusal leaves the state and
// all that is lent as they were.
pub fn repair(
    t: Table,
    list: &mut [u8],
    first: &mut [u16],
    second: &mut [u16],
    third: &mut [u16],
    own2: &mut [u32],
    own3: &mut [u32],
    long1: &mut [u16],
    long2: &mut [u16],
) -> RepairedTable
    ensures { MeetsRepair t (lent list.old first.old second.old third.old
        own2.old own3.old long1.old long2.old) result
        (lent list.new first.new second.new third.new own2.new own3.new
        long1.new long2.new) }
{
    let mut kept = [0u8; 32768];
    let a = Arrays {
        list,
        first,
        second,
        third,
        own2,
        own3,
        long1,
        long2,
    };
    let j = match judge(t, a, &mut kept) {
        Ok(j) => j,
        Err(denied) => {
            return RepairedTable {
                answer: Repaired::Refused(denied.why.number()),
                table: t,
            };
        }
    };
    let input = &kept[..j.kept * 8];
    let d = count_cells(
        t.geometry,
        input,
        first,
        second,
        third,
        own2.len(),
        own3.len(),
    );
    let loaded = load(
        t, input, list, first, second, third, own2, own3, long1, long2,
    );
    RepairedTable {
        answer: done(j, d),
        table: loaded.unwrap_or(t),
    }
}
