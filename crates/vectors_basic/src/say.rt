// Answers and maps, as words.
use basic_build::build;
use basic_lookup::lookup;
use basic_many::lookup_many;
use numbered::Numbered;
use refusals::Refused;
use std::io;
use vectors_shared::shown::Numbers;

pub fn answered<E: Numbered>(rt: &impl Print, word: &str, answer: Result<(), E>) -> io::Result<()> {
    match answer {
        Ok(()) => println!(rt; "{word} done"),
        Err(why) => {
            let e = why.by_number();
            println!(rt; "{word} {e}")
        }
    }
}

fn found(rt: &impl Print, answer: Result<Option<u16>, Refused>) -> io::Result<()> {
    match answer {
        Ok(Some(hop)) => println!(rt; "lookup hop {hop}"),
        Ok(None) => println!(rt; "lookup no route"),
        Err(e) => println!(rt; "lookup {e}"),
    }
}

// Maps are built.
pub fn built(
    rt: &impl Print,
    word: &str,
    input: &[u8],
    bits: &mut [u8],
    cells: &mut [u16],
) -> io::Result<()> {
    answered(rt, word, build(input, bits, cells))
}

// Each of these addresses.
pub fn finds(
    rt: &impl Print,
    input: &[u8],
    bits: &[u8],
    cells: &[u16],
    addrs: &[u32],
) -> io::Result<()> {
    for addr in addrs {
        found(rt, lookup(input, bits, cells, *addr))?;
    }
    Ok(())
}

// The bytes and the cells that are not zero, each with its place.
pub fn maps(rt: &impl Print, bits: &[u8], cells: &[u16]) -> io::Result<()> {
    for (k, byte) in bits.iter().enumerate() {
        if *byte != 0 {
            println!(rt; "byte {k} {byte}")?;
        }
    }
    for (k, cell) in cells.iter().enumerate() {
        if *cell != 0 {
            println!(rt; "cell {k} {cell}")?;
        }
    }
    Ok(())
}

// Many lookups, and the word of each.
pub fn lookups(
    rt: &impl Print,
    word: &str,
    input: &[u8],
    bits: &[u8],
    cells: &[u16],
    addrs: &[u32],
    out: &mut [u32],
) -> io::Result<()> {
    answered(rt, word, lookup_many(input, bits, cells, addrs, out))?;
    println!(rt; "words{}", Numbers(out))
}

// The five addresses of list A at once.
pub fn many(rt: &impl Print, input: &[u8], bits: &[u8], cells: &[u16]) -> io::Result<()> {
    let addrs = [
        0x0A01_02C8,
        0x0A01_0205,
        0x0A01_0301,
        0x0A02_0001,
        0xC000_0201,
    ];
    lookups(rt, "lookups", input, bits, cells, &addrs, &mut [9; 5])
}

// What a refused build has left: the first byte and the first cell.
pub fn left(rt: &impl Print, bits: &[u8], cells: &[u16]) -> io::Result<()> {
    print!(rt; "left")?;
    if let Some(byte) = bits.first() {
        print!(rt; " {byte}")?;
    }
    if let Some(cell) = cells.first() {
        print!(rt; " {cell}")?;
    }
    println!(rt; "")
}
