// Long runs over the two named geometries: three hundred drawn changes, and lookups after each. The list and the pools are
// small, so that refusals come too. At the end the routes are loaded into arrays of other numbers, and the same lookups made there.
use std::io;
use vectors_play::lend::{Room, lend, standard};

// What the run gave: its changes and its lookups; the report; lookups once more; and a sum over each array. Then the load.
fn run(rt: &impl Print, room: Room, start: &[u8]) -> io::Result<()> {
    lend(
        rt,
        room,
        start,
        b"numbers; tell; judge; hash\n\
        keep; put 0, 0 to 192: 9; put 1, 0 to 65536: 9; put 2, 0 to 3072: 9; put 3, 0 to 2048: 9; put 4, 0 to 4: 9\n\
        put 5, 0 to 4: 9; put 6, 0 to 65536: 9; put 7, 0 to 3072: 9; load; tell; judge",
    )
}

// A run at the standard geometry: room for 24 routes, four second chunks and three third ones.
pub fn at_standard(rt: &impl Print) -> io::Result<()> {
    println!(rt; "standard")?;
    run(rt, standard(24, 4, 3), b"make; draw 300 from 1\n")
}

// A run at the small geometry: room for 24 routes, three second chunks and two third ones.
pub fn at_small(rt: &impl Print) -> io::Result<()> {
    let room = Room {
        list: 192,
        first: 4096,
        second: 3072,
        third: 2048,
        own2: 3,
        own3: 2,
        long1: 4096,
        long2: 3072,
    };
    println!(rt; "small")?;
    run(rt, room, b"state 12 22, 0; make; draw 300 from 2\n")
}
