// List A beside a list that differs from it in one record, both built into arrays of equal sizes.
use crate::compare;
use std::io;
use tree_build::build;
use vectors_shared::list::list_a;

fn beside(rt: &impl Print, label: &str, other: &[u8]) -> io::Result<()> {
    let mut ws = [9u32; 24];
    let mut hs = [9u16; 5];
    let _ = build(&list_a(), &mut ws, &mut hs);
    let mut ws2 = [8u32; 24];
    let mut hs2 = [8u16; 5];
    let _ = build(other, &mut ws2, &mut hs2);
    compare::images(rt, label, &ws2, &hs2, &ws, &hs)
}

// 10.1.0.0/16 with mark 1.
pub fn marked(rt: &impl Print) -> io::Result<()> {
    let mut other = list_a();
    other[21] = 1;
    beside(rt, "mark", &other)
}

// 10.1.2.128/25 to hop 58.
pub fn hop(rt: &impl Print) -> io::Result<()> {
    let mut other = list_a();
    other[39] = 58;
    beside(rt, "hop", &other)
}

// 10.1.3.0/24 instead of 10.1.2.0/24, in its place after 10.1.2.128/25.
pub fn prefix(rt: &impl Print) -> io::Result<()> {
    let mut other = list_a();
    // Stays: byte by byte; of `other[24..].copy_from_slice(..)` it stood open that the array keeps its 40 bytes.
    other[27] = 128;
    other[28] = 25;
    other[31] = 57;
    other[34] = 3;
    other[35] = 0;
    other[36] = 24;
    other[39] = 44;
    beside(rt, "prefix", &other)
}
