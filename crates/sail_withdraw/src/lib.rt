// Withdraw: a route is taken out of a table.
#![tactic(auto)]

ghost use Rattle.sail.specs.Lent.{lent};
ghost use Rattle.sail_withdraw.specs.Contract.{MeetsWithdraw};

pub mod answers;

use crate::answers::{Withdraw, Withdrawn};
use routes::prefix::clear_after;
use sail::table::Table;
use sail_judge::withdraw::judge_withdraw;
use sail_take::take;

// Takes the route of the prefix of len bits of addr out of the table, and closes the chunks that are no longer needed.
// Bits of addr after the length are cleared first, and an accepted answer says whether any were. A refusal leaves the
// state and all that is lent as they were.
pub fn withdraw(
    t: Table,
    list: &mut [u8],
    first: &mut [u16],
    second: &mut [u16],
    third: &mut [u16],
    own2: &mut [u32],
    own3: &mut [u32],
    long1: &mut [u16],
    long2: &mut [u16],
    addr: u32,
    len: u8,
) -> Withdrawn
    ensures { MeetsWithdraw t (lent list.old first.old second.old third.old
        own2.old own3.old long1.old long2.old) addr len
        result (lent list.new first.new second.new third.new
        own2.new own3.new long1.new long2.new) }
{
    let a = clear_after(addr, len);
    let mut ws = [0u64; 4096];
    let mut par = [0u16; 4353];
    let f = judge_withdraw(
        t, list, first, second, third, own2, own3, long1, long2, a, len, &mut ws, &mut par,
    );
    if f.number != 0 {
        return Withdrawn {
            answer: Withdraw::Refused(f.number),
            table: t,
        };
    }
    let u = take(
        t, list, first, second, third, own2, own3, long1, long2, a, len, f.at, &mut ws, &mut par,
    );
    Withdrawn {
        answer: Withdraw::Removed(a != addr),
        table: u,
    }
}
