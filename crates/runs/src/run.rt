// The run under a prefix: the records of that length or longer inside it. They stand together in an ascending list.
ghost use Rattle.std.specs.Prelude.{◌≡◌, ◌≤◌};
ghost use Rattle.runs.specs.Run.{past_key, IsRun};
ghost use Rattle.runs.specs.Contract.{MeetsRunCheck};

use input_check::input::check_input;
use lists::place::place;
use records::record;
use refusals::{Refusal, Refused};
use routes::input::prefix_ok;

// The key of the first address after a prefix. Every record inside the prefix is before it, and every later one is not.
fn past_key(addr: u32, len: u8) -> u64
    requires { len ≤ 32 }
    ensures { result ≡ past_key addr len }
{
    record::key_of(addr, 0) + (1u64 << (32 - u32::from(len))) * 256
}

// Where a run starts, and how many records it has.
#[derive(Clone, Copy, Debug, PartialEq, Eq)]
pub struct Span {
    pub start: usize,
    pub count: usize,
}

// The run under a prefix; or the input's refusals, and then a prefix that is none (3).
pub fn run_check(list: &[u8], addr: u32, len: u8) -> Result<Span, Refused>
    ensures { MeetsRunCheck list.now addr len result }
{
    let n = check_input(list)?;
    if !prefix_ok(addr, len) {
        return Err(Refusal::Prefix.into());
    }
    let start = place(list, n, record::key_of(addr, len));
    let end = place(list, n, past_key(addr, len));
    Ok(Span {
        start,
        count: end - start,
    })
}

// The run, as that part of the caller's own list. A refused run is the empty part at the list's start.
pub fn run(list: &[u8], addr: u32, len: u8) -> &[u8]
    ensures { IsRun list.entry result addr len }
{
    let Ok(Span { start, count }) = run_check(list, addr, len) else {
        return &list[0..0];
    };
    let a = start * 8;
    let e = a + count * 8;
    &list[a..e]
}
