// Whether a table may be put right: what is kept of its list, and whether there are chunks for it.
#![tactic(auto)]

ghost use Rattle.std.specs.Prelude.{◌≡◌, None, length};
ghost use Rattle.sail.specs.Arrays.{lent_by};
ghost use Rattle.repair_judge.specs.Judge.{ListReady, ListJudged, Judged};

use refusals::Refusal;
use repair_keep::{keep, looked};
use sail::arrays::Arrays;
use sail::table::Table;
use sail_need::weigh;
use sail_sizes::check_sizes;

// How many records are looked at, and how many of them are kept.
#[derive(Clone, Copy, Debug, PartialEq, Eq)]
pub struct Kept {
    pub looked: usize,
    pub kept: usize,
}

// Why a table is not repaired; and what is kept of its list all the same, if the sizes are right.
#[derive(Clone, Copy, Debug, PartialEq, Eq)]
pub struct Denied {
    pub why: Refusal,
    pub kept: Option<Kept>,
}

// For the sizes: nothing is kept.
impl From<Refusal> for Denied {
    ghost from_gives = { λ e d. d ≡ record { why = e; kept = None } };

    fn from(why: Refusal) -> Denied {
        Denied { why, kept: None }
    }
}

// What is kept of a list of any size up to 32,768 bytes, into `kept`; 7 or 8 if n2 and n3 chunks are too few for it.
pub fn judge_list(
    t: Table,
    list: &[u8],
    n2: usize,
    n3: usize,
    kept: &mut [u8],
) -> Result<Kept, Denied>
    requires { ListReady t.geometry list.now kept.old }
    ensures { ListJudged t list.now n2 n3 kept.new result }
{
    let room = list.len() / 8;
    let n = looked(t.count, room);
    let m = keep(list, n, kept);
    let end = m * 8;
    let j = Kept { looked: n, kept: m };
    match weigh(t.geometry, &kept[..end], m, room, n2, n3) {
        Ok(()) => Ok(j),
        Err(why) => Err(Denied { why, kept: Some(j) }),
    }
}

// What is kept of the list, into `kept`: 1 or 2 for the sizes, which come first, and 7 or 8 where there are no chunks for it.
pub fn judge(t: Table, a: Arrays, kept: &mut [u8]) -> Result<Kept, Denied>
    requires { length kept.old ≡ 32768 }
    ensures { Judged t (lent_by a.entry) kept.new result }
{
    check_sizes(t, a)?;
    judge_list(t, a.list, a.own2.len(), a.own3.len(), kept)
}
