// List A by build, and by its five announcements on the empty image in each of the 120 orders; and with a route more that is withdrawn again.
use crate::compare;
use std::io;
use tree_build::build;
use tree_change::{announce, withdraw};
use vectors_shared::list::list_a;

// List A's routes: address, length and hop.
const ROUTES: [(u32, u8, u16); 5] = [
    (0, 0, 6),
    (0x0A00_0000, 8, 20),
    (0x0A01_0000, 16, 31),
    (0x0A01_0200, 24, 44),
    (0x0A01_0280, 25, 57),
];

// The n-th order of 120: the routes announced one by one on the empty image, each one of those left.
fn announced(words: &mut [u32], hops: &mut [u16], n: usize) {
    let _ = build(b"", words, hops);
    let mut routes = ROUTES;
    let mut orders = n;
    for last in (0..5).rev() {
        routes.swap(orders % (last + 1), last);
        orders /= last + 1;
        let (addr, len, hop) = routes[last];
        let _ = announce(words, hops, addr, len, hop);
    }
}

// Whether the n-th order gives the same words and hops.
fn gives(words: &[u32], hops: &[u16], n: usize) -> bool {
    let mut ws = [7u32; 21];
    let mut hs = [7u16; 5];
    announced(&mut ws, &mut hs, n);
    &ws[..] == words && &hs[..] == hops
}

pub fn every(rt: &impl Print) -> io::Result<()> {
    let mut ws = [9u32; 21];
    let mut hs = [9u16; 5];
    let _ = build(&list_a(), &mut ws, &mut hs);
    let same = (0..120).filter(|n| gives(&ws, &hs, *n)).count();
    println!(rt; "same in {same} orders of 120")
}

// What the image of list A in arrays of exactly its size has is the used part of one in larger arrays.
fn used(rt: &impl Print, words: &[u32], hops: &[u16]) -> io::Result<()> {
    let mut ws = [7u32; 21];
    let mut hs = [7u16; 5];
    let _ = build(&list_a(), &mut ws, &mut hs);
    let same_words = compare::told(words.starts_with(&ws));
    let same_hops = compare::told(hops.starts_with(&hs));
    println!(rt; "used: words {same_words} hops {same_hops}")
}

// Beside list A, built into arrays of the same sizes.
fn beside(rt: &impl Print, label: &str, words: &[u32], hops: &[u16]) -> io::Result<()> {
    let mut ws = [9u32; 39];
    let mut hs = [9u16; 6];
    let _ = build(&list_a(), &mut ws, &mut hs);
    compare::images(rt, label, words, hops, &ws, &hs)
}

// 192.0.2.0/24 announced and withdrawn again.
pub fn detour(rt: &impl Print) -> io::Result<()> {
    let mut ws = [8u32; 39];
    let mut hs = [8u16; 6];
    let _ = build(&list_a(), &mut ws, &mut hs);
    let _ = announce(&mut ws, &mut hs, 0xC000_0200, 24, 3);
    beside(rt, "more", &ws, &hs)?;
    let _ = withdraw(&mut ws, &mut hs, 0xC000_0200, 24);
    beside(rt, "back", &ws, &hs)?;
    used(rt, &ws, &hs)
}
