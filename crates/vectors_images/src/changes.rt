// Changes of list A's image, each from the image as it was built.
use crate::play::play;
use std::io;

// As it is built; one route more or less, or another hop.
pub fn one_route(rt: &impl Print) -> io::Result<()> {
    let mut ws = [9u32; 27];
    let mut hs = [9u16; 6];
    play(
        rt,
        b"(build); test; image\n\
        (build); withdraw 10.1.2.128/25; image\n\
        (build); announce 10.1.2.64/26 to 9; image\n\
        (build); announce 0.0.0.0/1 to 9; image\n\
        (build); announce 10.1.2.200/32 to 70; image\n\
        (build); announce 10.1.2.0/24 to 45; image\n\
        (build); withdraw 0.0.0.0/0; image",
        &mut ws,
        &mut hs,
    )
}

// A path of its own: a node more at each of six depths, and away again.
pub fn branch(rt: &impl Print) -> io::Result<()> {
    let mut ws = [9u32; 39];
    let mut hs = [9u16; 6];
    play(
        rt,
        b"(build); announce 192.0.2.0/24 to 3; image; withdraw 192.0.2.0/24; image",
        &mut ws,
        &mut hs,
    )
}

// A node too few, a hop too few, and both; a replacement wants neither.
pub fn room(rt: &impl Print) -> io::Result<()> {
    let mut short = [9u32; 38];
    let mut hs = [9u16; 6];
    play(
        rt,
        b"(build); announce 192.0.2.0/24 to 3; image",
        &mut short,
        &mut hs,
    )?;
    let mut ws = [9u32; 39];
    let mut few = [9u16; 5];
    play(
        rt,
        b"(build); announce 192.0.2.0/24 to 3; image",
        &mut ws,
        &mut few,
    )?;
    play(
        rt,
        b"(build); announce 192.0.2.0/24 to 3; image; (build); announce 0.0.0.0/0 to 7; image",
        &mut short,
        &mut few,
    )
}

// The last route away leaves the bare root, and it may be announced again.
pub fn last(rt: &impl Print) -> io::Result<()> {
    let mut ws = [9u32; 5];
    let mut hs = [9u16; 2];
    let _ = tree_build::build(b"\x00\x00\x00\x00\x00\x00\x00\x06", &mut ws, &mut hs);
    play(
        rt,
        b"image; withdraw 0.0.0.0/0; image; test; withdraw 0.0.0.0/0; announce 0.0.0.0/0 to 6; image",
        &mut ws,
        &mut hs,
    )
}
