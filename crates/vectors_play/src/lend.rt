// The arrays that a script plays on.
use crate::play::play;
use std::io;

// How long each of them is.
#[derive(Clone, Copy)]
pub struct Room {
    pub list: usize,
    pub first: usize,
    pub second: usize,
    pub third: usize,
    pub own2: usize,
    pub own3: usize,
    pub long1: usize,
    pub long2: usize,
}

// At the standard geometry: room for so many routes, and so many chunks in each pool.
pub fn standard(routes: usize, seconds: usize, thirds: usize) -> Room {
    let own2 = seconds.min(4);
    let own3 = thirds.min(4);
    Room {
        list: routes.min(24) * 8,
        first: 65536,
        second: own2 * 256,
        third: own3 * 256,
        own2,
        own3,
        long1: 65536,
        long2: own2 * 256,
    }
}

// Plays two scripts, one after the other, on zeros.
pub fn lend(rt: &impl Print, room: Room, head: &[u8], script: &[u8]) -> io::Result<()> {
    let n0 = room.list.min(192);
    let n1 = room.first.min(65536);
    let n2 = room.second.min(3072);
    let n3 = room.third.min(2048);
    let n4 = room.own2.min(4);
    let n5 = room.own3.min(4);
    let n6 = room.long1.min(65536);
    let n7 = room.long2.min(3072);
    play(
        rt,
        head,
        script,
        &mut [0; 192][..n0],
        &mut [0; 65536][..n1],
        &mut [0; 3072][..n2],
        &mut [0; 2048][..n3],
        &mut [0; 4][..n4],
        &mut [0; 4][..n5],
        &mut [0; 65536][..n6],
        &mut [0; 3072][..n7],
    )
}
