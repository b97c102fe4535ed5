// Many lookups in bit maps: input and sizes are checked once, and each word is what one lookup answers.
#![tactic(auto)]

ghost use Rattle.std.specs.Prelude.{◌≡◌, length};
ghost use Rattle.routes.specs.Record.{GoodInput};
ghost use Rattle.basic.specs.Maps.{MapSizes};
ghost use Rattle.basic.specs.Calls.{means_basic_found, means_basic_answer, hop_word, many, many_of};
ghost use Rattle.basic.specs.Contract.{MeetsBasicMany};
ghost use Rattle.routes.specs.Said.{told};

use basic::check::check;
use basic_lookup::{found_of, walk};
use refusals::{Refusal, Refused};

// A refusal as a word: its number in bits 0 to 7, with bit 8 set where it has an index.
fn refusal_word(e: Refused) -> u32
    ensures { result ≡ hop_word (told e) }
{
    let number = u32::from(e.why.number());
    match e.at {
        Some(_) => number + 256,
        None => number,
    }
}

// An answer as a word: the hop in bits 16 to 31, 0 there for no route; or the refusal.
fn word(f: Result<Option<u16>, Refused>) -> u32
    ensures { result ≡ hop_word (means_basic_found f) }
{
    match f {
        Ok(met) => u32::from(met.unwrap_or(0)) * 65536,
        Err(e) => refusal_word(e),
    }
}

// One word for each address, where the checks are done.
fn each(
    input: &[u8],
    n: usize,
    bits: &[u8],
    cells: &[u16],
    addrs: &[u32],
    out: &mut [u32],
) -> Result<(), Refused>
    requires { GoodInput input.now n × MapSizes (length bits.now) (length cells.now) }
    ensures { many (means_basic_answer result) out.new
        ≡ many_of input.now bits.now cells.now addrs.now out.old }
{
    let m = addrs.len();
    if out.len() != m {
        return Err(Refusal::Size.into());
    }
    for k in 0..m {
        out[k] = word(found_of(walk(input, n, bits, cells, addrs[k])));
    }
    Ok(())
}

// For each address the word of its lookup. A refusal leaves the words as they were.
pub fn lookup_many(
    input: &[u8],
    bits: &[u8],
    cells: &[u16],
    addrs: &[u32],
    out: &mut [u32],
) -> Result<(), Refused>
    ensures { MeetsBasicMany input.now bits.now cells.now addrs.now out.old
        result out.new }
{
    let n = check(input, bits.len(), cells.len())?;
    each(input, n, bits, cells, addrs, out)
}
