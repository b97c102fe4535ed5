// Images built, looked up, refused and broken.
use crate::play::play;
use crate::shown;
use std::io;
use vectors_shared::shown::Numbers;

// List A's image in arrays that held other numbers, and lookups in it.
pub fn list_a(rt: &impl Print) -> io::Result<()> {
    let mut ws = [9u32; 23];
    let mut hs = [9u16; 6];
    play(
        rt,
        b"build; numbers; find 10.1.2.200; find 10.1.3.1; find 192.0.2.1",
        &mut ws,
        &mut hs,
    )
}

// The largest counts. The image of 10.1.2.200/32 alone: that address reads 9 nodes and the hop, the next one 8 nodes. Where bit 0 of the last
// node is lost, 9 nodes are read and no hop.
pub fn host(rt: &impl Print) -> io::Result<()> {
    let mut ws = [9u32; 27];
    let mut hs = [9u16; 1];
    play(
        rt,
        b"build 10.1.2.200/32 to 57; find 10.1.2.200; find 10.1.2.201; put 24: 0; find 10.1.2.200",
        &mut ws,
        &mut hs,
    )
}

// The image of no routes, and arrays that are too small: they stay as they were.
pub fn sizes(rt: &impl Print) -> io::Result<()> {
    let mut ws = [9u32; 20];
    let mut hs = [9u16; 4];
    play(rt, b"build; numbers", &mut ws, &mut hs)?;
    shown::built(rt, tree_build::build(b"", &mut ws, &mut hs))?;
    println!(rt; "words{}", Numbers(&ws))?;
    play(rt, b"find 10.1.2.200", &mut ws, &mut hs)?;
    let mut more = [9u32; 21];
    play(rt, b"build", &mut more, &mut hs)?;
    shown::built(rt, tree_build::build(b"nine byte", &mut more, &mut hs))
}

// Each cause of 13: no root, bit 15 set, a child beyond what is lent, a hop beyond, hop 0, hop 32,768; and none, with hop 32,767.
pub fn broken(rt: &impl Print) -> io::Result<()> {
    let mut one = [32767u16; 1];
    let mut none = [0u16; 0];
    let mut short = [0u32; 2];
    let mut root = [0u32; 3];
    play(rt, b"find 0.0.0.0", &mut short, &mut one)?;
    play(
        rt,
        b"put 0: 32768; find 0.0.0.0; put 0: 65536; put 1: 1; find 0.0.0.0",
        &mut root,
        &mut one,
    )?;
    play(rt, b"put 0: 1; find 0.0.0.0", &mut root, &mut none)?;
    play(
        rt,
        b"hop 0: 0; find 0.0.0.0; hop 0: 32768; find 0.0.0.0; hop 0: 32767; find 0.0.0.0",
        &mut root,
        &mut one,
    )
}

// Build stays strict, as of 10.1.2.3/24, and leaves both arrays.
pub fn host_bits(rt: &impl Print) -> io::Result<()> {
    let mut ws = [9u32; 3];
    let mut hs = [9u16; 1];
    play(rt, b"build 10.1.2.3/24 to 44; numbers", &mut ws, &mut hs)
}
