// SAIL tables: list A's table at the standard geometry, written out by hand from document 01, looked up, reported and damaged. The list
// is as a load leaves it; all cells, owners and counts are put by hand.
use std::io;
use vectors_play::lend::{Room, lend, standard};

// Cells by hand: 0/0 is 32774, 10/8 32788, 10.1/16 32799, 10.1.2/24 32812, 10.1.2.128/25 32825. First cell 2561 and second cell 2 name the
// chunks 1, whose owners are 2562 and 3. First cell 2561 has two long routes, second cell 2 has one.
fn by_hand(rt: &impl Print, room: Room, script: &[u8]) -> io::Result<()> {
    lend(
        rt,
        room,
        b"input 0.0.0.0/0 to 6; input 10.0.0.0/8 to 20; input 10.1.0.0/16 to 31; input 10.1.2.0/24 to 44; input 10.1.2.128/25 to 57; (load)\n\
        put 1, 0 to 65536: 32774; put 1, 2560 to 2816: 32788; put 1, 2561 to 2562: 1\n\
        put 2, 0 to 256: 32799; put 2, 256 to 1024: 0; put 2, 2 to 3: 1\n\
        put 3, 0 to 128: 32812; put 3, 128 to 256: 32825; put 3, 256 to 1024: 0\n\
        put 4, 0 to 1: 2562; put 4, 1 to 4: 0; put 5, 0 to 1: 3; put 5, 1 to 4: 0\n\
        put 6, 0 to 65536: 0; put 6, 2561 to 2562: 2; put 7, 0 to 1024: 0; put 7, 2 to 3: 1; state 16 24, 5\n",
        script,
    )
}

// Room for eight routes, and four chunks in each pool.
fn play(rt: &impl Print, script: &[u8]) -> io::Result<()> {
    by_hand(rt, standard(8, 4, 4), script)
}

// The five addresses of list A.
pub fn list_a(rt: &impl Print) -> io::Result<()> {
    play(
        rt,
        b"find 10.1.2.200; find 10.1.2.5; find 10.1.3.1; find 10.2.0.1; find 192.0.2.1",
    )
}

// A list that is no whole number of records.
fn ragged(rt: &impl Print) -> io::Result<()> {
    let mut room = standard(8, 4, 4);
    room.list = 9;
    by_hand(rt, room, b"find 10.1.2.200; tell")
}

// A wrong owner; counts above the room and below the routes; a size and a geometry that are none.
pub fn states(rt: &impl Print) -> io::Result<()> {
    play(
        rt,
        b"put 4, 0 to 1: 2563; find 10.1.2.200; tell; put 4, 0 to 1: 2562\n\
        state 16 24, 9; find 10.1.2.200; tell; state 16 24, 4; find 10.1.2.200; tell",
    )?;
    ragged(rt)?;
    play(rt, b"state 16 27, 5; find 10.1.2.200; tell")
}

// Nothing damaged; chunk numbers 0 and beyond the pool; a third cell that is no leaf; a free chunk that is not zero, which no
// lookup reads; a stray byte past the count.
pub fn damaged(rt: &impl Print) -> io::Result<()> {
    play(
        rt,
        b"find 10.1.2.200; tell\n\
        put 1, 2561 to 2562: 0; find 10.1.2.200; tell; put 1, 2561 to 2562: 5; find 10.1.2.200; tell; put 1, 2561 to 2562: 1\n\
        put 3, 200 to 201: 1; find 10.1.2.200; tell; put 3, 200 to 201: 32825\n\
        put 3, 1023 to 1024: 1; find 10.1.2.200; tell; put 3, 1023 to 1024: 0\n\
        put 0, 63 to 64: 1; find 10.1.2.200; tell",
    )
}

// One count too few.
fn short_counts(rt: &impl Print) -> io::Result<()> {
    let mut room = standard(8, 4, 4);
    room.long1 = 65535;
    by_hand(rt, room, b"find 10.1.2.200; tell")
}

// Wrong counts, which the report tells and no lookup looks at; and a size of theirs, which both tell.
pub fn counted(rt: &impl Print) -> io::Result<()> {
    play(
        rt,
        b"put 6, 0 to 1: 1; find 10.1.2.200; tell; put 6, 0 to 1: 0\n\
        put 7, 1023 to 1024: 1; find 10.1.2.200; tell",
    )?;
    short_counts(rt)
}
