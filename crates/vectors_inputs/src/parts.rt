// Parts of an input: the run under a prefix, and the tally.
use crate::samples;
use refusals::Refused;
use runs::run::Span;
use runs::{run, tally};
use std::io;
use vectors_shared::list::list_a;
use vectors_shared::shown::{Hex, Numbers};

fn said(rt: &impl Print, answer: Result<Span, Refused>) -> io::Result<()> {
    match answer {
        Ok(Span { start, count }) => println!(rt; "run from {start} count {count}"),
        Err(e) => println!(rt; "run {e}"),
    }
}

// What the check says of a run, and the bytes of the run.
fn one(rt: &impl Print, list: &[u8], addr: u32, len: u8) -> io::Result<()> {
    said(rt, run::run_check(list, addr, len))?;
    println!(rt; "holds{}", Hex(run::run(list, addr, len)))
}

// Document 01's two runs under list A; the whole list; a prefix with a bit after its length; an input of nine bytes.
pub fn run(rt: &impl Print) -> io::Result<()> {
    let a = list_a();
    one(rt, &a, 0x0A01_0000, 16)?;
    one(rt, &a, 0x0B00_0000, 8)?;
    one(rt, &a, 0, 0)?;
    one(rt, &a, 0x0A01_0001, 16)?;
    one(rt, b"nine byte", 0x0A01_0001, 16)
}

// The run carries the mark, and the tally does not look at it.
pub fn attached(rt: &impl Print) -> io::Result<()> {
    let a = samples::attached_a();
    one(rt, &a, 0x0A01_0000, 16)?;
    counts(rt, &a)
}

// The run stays strict: none under 10.1.2.3/24.
pub fn host_bits(rt: &impl Print) -> io::Result<()> {
    one(rt, &list_a(), 0x0A01_0203, 24)
}

fn counts(rt: &impl Print, list: &[u8]) -> io::Result<()> {
    println!(rt; "tally{}", Numbers(&tally::tally(list).counts))
}

// The tally of list A, and of an input that is refused.
pub fn tallies(rt: &impl Print) -> io::Result<()> {
    counts(rt, &list_a())?;
    counts(rt, b"nine byte")
}
