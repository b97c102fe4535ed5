// The documents' examples of announce and withdraw, as scripts at the standard geometry.
use std::io;
use vectors_play::lend::{lend, standard};

// List A is announced, and served. First cell 2561 and second cell 2 name the chunks; second cell 3 is a leaf. Then no room is left and
// no chunk: a new prefix gives 6, and a standing one is replaced, there and back. Withdrawn are /25, whose third chunk closes; /0, after
// which nothing covers 192.0.2.1; and /0 again, which stands no more.
pub fn list_a(rt: &impl Print) -> io::Result<()> {
    lend(
        rt,
        standard(5, 1, 1),
        b"",
        b"make\n\
        announce 0.0.0.0/0 to 6; announce 10.0.0.0/8 to 20; announce 10.1.0.0/16 to 31\n\
        announce 10.1.2.0/24 to 44; announce 10.1.2.128/25 to 57\n\
        find 10.1.2.200; find 10.1.2.5; find 10.1.3.1; find 10.2.0.1; find 192.0.2.1; tell\n\
        cell 1, 2561; cell 2, 2; cell 2, 3\n\
        announce 11.0.0.0/8 to 9; announce 10.1.2.128/25 to 58; find 10.1.2.200; tell; announce 10.1.2.128/25 to 57\n\
        withdraw 10.1.2.128/25; find 10.1.2.200; tell\n\
        withdraw 0.0.0.0/0; find 192.0.2.1; tell; withdraw 0.0.0.0/0",
    )
}

// One second chunk, and no third. Refused for want of a chunk: 10.2.2.0/24 of a second one (7), 10.1.2.128/25 of a third one (8). They
// leave all eight arrays as they were. Then 10.1.2.0/24 is withdrawn, and 10.2.2.0/24 takes the chunk that is free again: first cell
// 2562 is 1, and the chunk's owner is 2563.
pub fn one_chunk(rt: &impl Print) -> io::Result<()> {
    lend(
        rt,
        standard(8, 1, 0),
        b"",
        b"make; announce 10.1.2.0/24 to 44; announce 10.2.2.0/24 to 45; announce 10.1.2.128/25 to 57; only\n\
        withdraw 10.1.2.0/24; announce 10.2.2.0/24 to 45; find 10.2.2.1; tell; cell 1, 2561; cell 1, 2562",
    )
}

// 10.0.0.0/8 comes late: inside 10.1.2.0/24 the longer route's leaf stays. Hop 32,767 passes. Lengths and hops that are none, and a
// prefix that does not stand.
pub fn late_short(rt: &impl Print) -> io::Result<()> {
    lend(
        rt,
        standard(8, 2, 1),
        b"",
        b"make; announce 10.1.2.0/24 to 44; announce 10.0.0.0/8 to 20\n\
        find 10.1.2.200; find 10.1.2.5; find 10.1.3.1; find 10.2.0.1; find 192.0.2.1\n\
        announce 11.0.0.0/16 to 32767; announce 11.0.0.0/24 to 32768; announce 11.0.0.0/24 to 0; announce 11.0.0.0/33 to 0\n\
        withdraw 11.0.0.0/33; withdraw 11.0.0.0/24; find 11.0.0.1; tell",
    )
}

// A list of nine bytes gives 2.
pub fn nine_bytes(rt: &impl Print) -> io::Result<()> {
    let mut room = standard(8, 2, 1);
    room.list = 9;
    lend(
        rt,
        room,
        b"",
        b"announce 11.0.0.0/8 to 9; withdraw 10.1.2.0/24",
    )
}

// The table of the late short route in other states: geometry (16, 27) gives 1; a count of routes that is not the list's gives 5, but 3
// and 4 come before it, and 9 after. Then the right one, with the table as it was.
pub fn states(rt: &impl Print) -> io::Result<()> {
    lend(
        rt,
        standard(8, 2, 1),
        b"(make); (announce 10.1.2.0/24 to 44); (announce 10.0.0.0/8 to 20); (announce 11.0.0.0/16 to 32767)\n",
        b"state 16 27, 3; announce 11.0.0.0/33 to 0; withdraw 11.0.0.0/33\n\
        state 16 24, 2; announce 11.0.0.0/33 to 0; announce 11.0.0.0/24 to 0; announce 11.0.0.0/24 to 1\n\
        withdraw 11.0.0.0/33; withdraw 11.0.0.0/24\n\
        state 16 24, 3; find 11.0.0.1; tell",
    )
}

// 10.1.0.0/16 becomes an attached network, and no cell changes. A mark of 2 gives 10, but 3 and 4 come before it and 5 after. Then another
// hop, and the network is behind a neighbour again.
pub fn marks(rt: &impl Print) -> io::Result<()> {
    lend(
        rt,
        standard(2, 1, 1),
        b"",
        b"make; announce 10.1.0.0/16 to 31; cell 1, 2561\n\
        announce 10.1.0.0/16 to 31, mark 1; entry 0; cell 1, 2561\n\
        announce 10.1.0.0/16 to 31, mark 2; announce 10.1.0.0/16 to 0, mark 2; announce 10.1.0.0/33 to 31, mark 2\n\
        state 16 24, 0; announce 10.1.0.0/16 to 31, mark 2; announce 10.1.0.0/16 to 31, mark 1\n\
        state 16 24, 1; announce 11.0.0.0/8 to 9, mark 1; entry 1\n\
        announce 10.1.0.0/16 to 32; entry 0; find 10.1.0.1; tell",
    )
}

// 10.1.2.3/24 means 10.1.2.0/24, which replaces it; 10.1.2.9/24 withdraws it, and then it stands no more. 10.1.2.3/0 is 0.0.0.0/0. A
// prefix with its bits cleared meets 7 for want of a chunk, and 9. Of a length over 32 nothing is cleared: it gives 3.
pub fn host_bits(rt: &impl Print) -> io::Result<()> {
    lend(
        rt,
        standard(2, 1, 0),
        b"",
        b"make; announce 10.1.2.3/24 to 44; entry 0; find 10.1.2.200\n\
        announce 10.1.2.0/24 to 45; announce 10.2.2.3/24 to 46; announce 10.1.2.7/24 to 47, mark 1; entry 0\n\
        announce 10.1.2.3/0 to 6; entry 0; tell\n\
        withdraw 10.1.2.9/24; withdraw 10.1.2.9/24; find 10.1.2.200; withdraw 255.255.255.255/0\n\
        announce 10.1.2.3/33 to 6; withdraw 10.1.2.3/33; tell",
    )
}

// Load stays strict: a record of 10.1.2.3/24 is refused.
pub fn strict(rt: &impl Print) -> io::Result<()> {
    lend(rt, standard(1, 1, 0), b"", b"input 10.1.2.3/24 to 44; load")
}
