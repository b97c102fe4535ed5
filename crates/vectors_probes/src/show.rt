// What is lent, shown: a record, a cell, and a sum over each array.
use crate::draw::mix;
use sail::arrays::Arrays;
use std::io;
use vectors_shared::shown::Hex;

// A sum over an array, every element in its order.
fn sum<T: Copy + Into<u64>>(list: &[T]) -> u64 {
    list.iter().fold(0, |sum, v| mix(sum, (*v).into()))
}

// A sum over each of the eight arrays.
pub fn sums(rt: &impl Print, a: Arrays) -> io::Result<()> {
    print!(rt;
        "arrays {} {} {} {}",
        sum(a.list),
        sum(a.first),
        sum(a.second),
        sum(a.third)
    )?;
    println!(rt;
        " {} {} {} {}",
        sum(a.own2),
        sum(a.own3),
        sum(a.long1),
        sum(a.long2)
    )
}

// A cell, and the owner of the first chunk of the pool below it.
pub fn cell(rt: &impl Print, cells: &[u16], own: &[u32], at: usize) -> io::Result<()> {
    print!(rt; "cell")?;
    if let Some(cell) = cells.get(at) {
        print!(rt; " {cell}")?;
    }
    print!(rt; " owner")?;
    if let Some(owner) = own.first() {
        print!(rt; " {owner}")?;
    }
    println!(rt; "")
}

// A record of the list.
pub fn record(rt: &impl Print, list: &[u8], k: usize) -> io::Result<()> {
    let bytes = list.chunks_exact(8).nth(k).unwrap_or(&[]);
    println!(rt; "record{}", Hex(bytes))
}
