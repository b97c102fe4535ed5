// Arrays of other sizes, and inputs that are refused. A refusal writes nothing.
use crate::case::Case;
use crate::say;
use std::io;
use vectors_shared::list::list_a;

// A build, a lookup, and what is left in arrays of these sizes.
fn refused(
    rt: &impl Print,
    word: &str,
    input: &[u8],
    bytes: usize,
    cells: usize,
) -> io::Result<()> {
    let case = Case {
        left: true,
        ..Case::sized(bytes, cells)
    };
    case.play(rt, word, input, &[0x0A02_0001])
}

// A byte and a cell too few, and one too many.
pub fn sizes(rt: &impl Print) -> io::Result<()> {
    let a = list_a();
    refused(rt, "16383 bytes", &a, 16383, 131071)?;
    refused(rt, "16385 bytes", &a, 16385, 131071)?;
    refused(rt, "131070 cells", &a, 16384, 131070)?;
    refused(rt, "131072 cells", &a, 16384, 131072)
}

// The record's refusal comes before the size's; nine bytes are one record and a rest; no byte is an input of no records.
pub fn order(rt: &impl Print) -> io::Result<()> {
    let mut wrong = list_a();
    wrong[39] = 0;
    refused(rt, "hop 0 in record 4", &wrong, 16, 16)?;
    refused(rt, "nine bytes", b"nine byte", 16, 16)?;
    refused(rt, "no byte", b"", 16, 16)
}

// A word for each of two addresses, in maps of zeros.
fn words(
    rt: &impl Print,
    word: &str,
    input: &[u8],
    bits: &[u8],
    out: &mut [u32],
) -> io::Result<()> {
    say::lookups(
        rt,
        word,
        input,
        bits,
        &[0; 131071],
        &[0x0A01_02C8, 0xC000_0201],
        out,
    )
}

// One word for each address; the input and the sizes come first.
pub fn many(rt: &impl Print) -> io::Result<()> {
    let a = list_a();
    let bits = [0u8; 16384];
    let mut two = [9u32; 2];
    words(rt, "three words", &a, &bits, &mut [9; 3])?;
    words(rt, "fewer bytes", &a, &bits[1..], &mut two)?;
    words(rt, "nine bytes", b"nine byte", &bits, &mut two)?;
    words(rt, "two words", &a, &bits, &mut two)
}
