// The tally of an input: how many records of each length.
ghost use Rattle.std.specs.Prelude.{◌≡◌, ◌+◌, ◌*◌, ◌≤◌, length};
ghost use Rattle.routes.specs.Record.{record_at, Records};
ghost use Rattle.runs.specs.Tally.{lengths_of, IsTally};

use input_check::input::check_input;
use refusals::Refused;

// The length of record k.
fn length_at(list: &[u8], k: usize) -> usize
    requires { (k + 1) * 8 ≤ length list.now }
    ensures { result ≡ (record_at list.now k).len }
{
    usize::from(list[k * 8 + 4])
}

// How many of n records have each of the lengths 0 to 32.
fn lengths(list: &[u8], n: usize) -> [u32; 33]
    requires { Records list.now n }
    ensures { result ≡ lengths_of list.now n }
{
    let mut counts = [0u32; 33];
    for k in 0..n {
        let l = length_at(list, k);
        counts[l] += 1;
    }
    counts
}

// What the check of the input says, and the counts beside it; zeros where the input is refused.
#[derive(Clone, Copy)]
pub struct Tallied {
    pub answer: Result<usize, Refused>,
    pub counts: [u32; 33],
}

pub fn tally(bytes: &[u8]) -> Tallied
    ensures { IsTally bytes.now result }
{
    let answer = check_input(bytes);
    let counts = match answer {
        Ok(n) => lengths(bytes, n),
        Err(_) => [0u32; 33],
    };
    Tallied { answer, counts }
}
