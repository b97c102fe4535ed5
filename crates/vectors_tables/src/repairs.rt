// What is damaged: list A's table, standard, with room for eight records and one chunk in each pool. It is put right, put right again, and
// reported.
use std::io;
use vectors_play::lend::{lend, standard};

// List A is the input.
fn play(rt: &impl Print, script: &[u8]) -> io::Result<()> {
    lend(
        rt,
        standard(8, 1, 1),
        b"input 0.0.0.0/0 to 6; input 10.0.0.0/8 to 20; input 10.1.0.0/16 to 31; input 10.1.2.0/24 to 44\n\
        input 10.1.2.128/25 to 57\n",
        script,
    )
}

// Nothing; a length of 33; a mark of 2, and of 1; a hop of 0; 255.0.0.0/8 for 10.0.0.0/8, which shuts out what follows.
pub fn list(rt: &impl Print) -> io::Result<()> {
    play(
        rt,
        b"state 16 24, 0; (load); repair; repair; tell\n\
        state 16 24, 0; (load); put 0, 20 to 21: 33; repair; repair; tell\n\
        state 16 24, 0; (load); put 0, 37 to 38: 2; repair; repair; tell\n\
        state 16 24, 0; (load); put 0, 5 to 6: 1; repair; repair; tell\n\
        state 16 24, 0; (load); put 0, 31 to 32: 0; repair; repair; tell\n\
        state 16 24, 0; (load); put 0, 8 to 9: 255; repair; repair; tell",
    )
}

// Counts over the room, and under the routes.
pub fn counts(rt: &impl Print) -> io::Result<()> {
    play(
        rt,
        b"state 16 24, 0; (load); state 16 24, 9; repair; repair; tell\n\
        state 16 24, 0; (load); state 16 24, 4294967295; repair; repair; tell\n\
        state 16 24, 0; (load); state 16 24, 3; repair; repair; tell\n\
        state 16 24, 0; (load); state 16 24, 0; repair; repair; tell",
    )
}

// A first cell that is no route; one that names no chunk; a second and a third cell; an owner, which is no cell.
pub fn cells(rt: &impl Print) -> io::Result<()> {
    play(
        rt,
        b"state 16 24, 0; (load); put 1, 2562 to 2563: 32768; repair; repair; tell\n\
        state 16 24, 0; (load); put 1, 2561 to 2562: 9; repair; repair; tell\n\
        state 16 24, 0; (load); put 2, 2 to 3: 2; put 3, 200 to 201: 2; repair; repair; tell\n\
        state 16 24, 0; (load); put 4, 0 to 1: 7; repair; repair; tell",
    )
}

// A geometry that is none, and one of other sizes; 10.2.2.128/25 for 10.1.2.128/25, so that two second chunks are needed; 10.1.1.0/25
// for 10.1.2.0/24, so that two third chunks are.
pub fn refusals(rt: &impl Print) -> io::Result<()> {
    play(
        rt,
        b"state 16 24, 0; (load); state 11 24, 5; repair; repair; tell\n\
        state 16 24, 0; (load); state 15 24, 5; repair; repair; tell\n\
        state 16 24, 0; (load); put 0, 33 to 34: 2; repair; repair; tell\n\
        state 16 24, 0; (load); put 0, 26 to 27: 1; put 0, 28 to 29: 25; repair; repair; tell",
    )
}

// A sound table whose chunks a run has numbered otherwise than a load would. 10.2.2.0/24 comes first and has chunk 1, then 10.1.2.0/24
// with chunk 2. A load numbers them the other way: both first cells change their numbers, and both chunks the cell of their route.
pub fn renumbered(rt: &impl Print) -> io::Result<()> {
    lend(
        rt,
        standard(8, 2, 1),
        b"(make); (announce 10.2.2.0/24 to 45); (announce 10.1.2.0/24 to 44)\n",
        b"repair; repair; tell",
    )
}
