// Each cause of 13, and the order of the refusals.
use crate::play::play;
use crate::shown;
use std::io;
use tree_check::test;

// List A's image with the last node's child base another, a word after the last node, a hop after the last, a used hop of 0 and one over
// 32,767; then as it was.
pub fn tests(rt: &impl Print) -> io::Result<()> {
    let mut ws = [9u32; 23];
    let mut hs = [9u16; 7];
    play(
        rt,
        b"(build); put 19: 8; test; (build); put 22: 1; test; (build); hop 5: 1; test\n\
        (build); hop 4: 0; test; (build); hop 4: 32768; test; (build); hop 4: 57; test",
        &mut ws,
        &mut hs,
    )
}

// The image of 0.0.0.0/32 alone, with other bits in its node of depth 8.
fn deepest(rt: &impl Print, word: u32) -> io::Result<()> {
    let mut ws = [9u32; 27];
    let mut hs = [9u16; 1];
    let _ = tree_build::build(b"\x00\x00\x00\x00\x20\x00\x00\x05", &mut ws, &mut hs);
    ws[24] = word;
    shown::tested(rt, test(&ws, &hs))
}

// Two words alone; a path that ends without a route; bit 1 at depth 8, and bit 0; two siblings, and their words changed about.
pub fn nodes(rt: &impl Print) -> io::Result<()> {
    let none = [0u16; 0];
    let short = [0u32, 1];
    shown::tested(rt, test(&short, &none))?;
    let bare = [0x0001_0000u32, 1, 0, 0, 2, 0];
    shown::tested(rt, test(&bare, &none))?;
    deepest(rt, 2)?;
    deepest(rt, 1)?;
    let hs = [5u16, 6];
    let two = [0x0003_0000u32, 1, 0, 1, 3, 0, 2, 3, 1];
    shown::tested(rt, test(&two, &hs))?;
    let about = [0x0003_0000u32, 1, 0, 2, 3, 1, 1, 3, 0];
    shown::tested(rt, test(&about, &hs))
}

// With a used hop of 0: a bad prefix before a bad hop, that before a broken image; a bad prefix before a broken image, that before an absent
// prefix.
pub fn order(rt: &impl Print) -> io::Result<()> {
    let mut ws = [9u32; 23];
    let mut hs = [9u16; 7];
    play(
        rt,
        b"(build); hop 4: 0; announce 10.1.2.1/24 to 0; announce 10.1.2.0/24 to 0; announce 10.1.2.0/24 to 1\n\
        withdraw 11.0.0.0/7; withdraw 11.0.0.0/8; (build); withdraw 11.0.0.0/8",
        &mut ws,
        &mut hs,
    )
}
