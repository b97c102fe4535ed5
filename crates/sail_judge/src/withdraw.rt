// The judge of a withdrawal: whether it is refused, and where it is not, where the record stands.
ghost use Rattle.chain.specs.List.{Scratch};
ghost use Rattle.routes.specs.Record.{Records};
ghost use Rattle.sail.specs.Lent.{lent};
ghost use Rattle.sail_judge.specs.Chain.{ChainLeft};
ghost use Rattle.sail_judge.specs.Withdraw.{RecordFound, WithdrawJudged};

use lists::edit;
use lists::place::place;
use records::record;
use routes::input;
use sail::arrays::Arrays;
use sail::table::Table;
use sail_sizes::check_sizes;
use sail_sound::test::sound;

// The number of the refusal. Where it is 0: the place of the prefix's record in the list.
#[derive(Clone, Copy)]
pub struct WithdrawVerdict {
    pub number: u8,
    pub at: usize,
}

// Where the record of a prefix stands among the list's n records; 9 where the prefix does not stand.
pub fn find_record(list: &[u8], n: usize, addr: u32, len: u8) -> WithdrawVerdict
    requires { Records list.now n }
    ensures { RecordFound list.now n addr len result }
{
    let p = record::key_of(addr, len);
    let k = place(list, n, p);
    if edit::stands_at(list, n, k, p) {
        return WithdrawVerdict { number: 0, at: k };
    }
    WithdrawVerdict { number: 9, at: 0 }
}

// The number with which the withdrawal is refused, by the first condition that holds; 0 where it is accepted, and the place
// of the prefix's record. The words of the list and their chain are then in `ws` and `par`.
pub fn judge_withdraw(
    t: Table,
    list: &[u8],
    first: &[u16],
    second: &[u16],
    third: &[u16],
    own2: &[u32],
    own3: &[u32],
    long1: &[u16],
    long2: &[u16],
    addr: u32,
    len: u8,
    ws: &mut [u64],
    par: &mut [u16],
) -> WithdrawVerdict
    requires { Scratch ws.old par.old }
    ensures { WithdrawJudged t (lent list.now first.now second.now third.now
        own2.now own3.now long1.now long2.now) addr len result
        × ChainLeft result.number list.now t.count ws.new par.new }
{
    let arrays = Arrays {
        list,
        first,
        second,
        third,
        own2,
        own3,
        long1,
        long2,
    };
    if let Err(why) = check_sizes(t, arrays) {
        return WithdrawVerdict {
            number: why.number(),
            at: 0,
        };
    }
    if !input::prefix_ok(addr, len) {
        return WithdrawVerdict { number: 3, at: 0 };
    }
    if !sound(
        t, list, first, second, third, own2, own3, long1, long2, ws, par,
    ) {
        return WithdrawVerdict { number: 5, at: 0 };
    }
    find_record(list, t.count as usize, addr, len)
}
