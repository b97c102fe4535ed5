// Lookups in a table, many at a time, each compared with a linear search over the table's list.
use crate::draw::{Draw, base, mix};
use crate::linear;
use records::record::read_record;
use refusals::Refusal;
use routes::Route;
use routes::found::Found;
use sail::arrays::Arrays;
use sail::table::Table;
use sail_lookup::lookup;
use std::fmt;

// How many lookups there were, how many of them found a hop and how many differ; and a sum over the answers.
#[derive(Clone, Copy, Default)]
pub struct Sums {
    pub looked: u64,
    pub found: u64,
    pub differ: u64,
    pub sum: u64,
}

impl fmt::Display for Sums {
    fn fmt<W: fmt::Write>(&self, f: &mut fmt::Formatter<W>) -> fmt::Result {
        let Sums {
            looked,
            found,
            differ,
            sum,
        } = *self;
        write!(f, "looked {looked} found {found} differ {differ} sum {sum}")
    }
}

impl Sums {
    fn take(&mut self, got: u64, want: u64) {
        self.looked = self.looked.wrapping_add(1);
        self.found = self.found.wrapping_add(u64::from(4 <= got));
        self.differ = self.differ.wrapping_add(u64::from(got != want));
        self.sum = mix(self.sum, got);
    }
}

// Hop and cells as one number, as the linear search has them; 0 for a refusal.
fn number(found: Result<Found, Refusal>) -> u64 {
    match found {
        Ok(found) => u64::from(found.hop.unwrap_or(0)) * 4 + u64::from(found.reads),
        Err(_) => 0,
    }
}

// How many addresses a prefix of this length has, modulo 2^32.
fn size(len: u8) -> u32 {
    match len {
        1..=32 => 1 << (32 - u32::from(len)),
        _ => 0,
    }
}

// An edge of a route's prefix: its first address, its last, the one before and the one after.
fn edge(r: Route, k: usize) -> u32 {
    let end = r.addr.wrapping_add(size(r.len));
    match k {
        0 => r.addr,
        1 => end.wrapping_sub(1),
        2 => r.addr.wrapping_sub(1),
        _ => end,
    }
}

// By turns one of the eight addresses that prefixes are drawn of, and a drawn one near it.
fn drawn(seed: Draw, j: u64) -> u32 {
    let i = j / 2;
    if j % 2 == 0 {
        return base(i);
    }
    seed.next().after(i).near(i)
}

// Four edges of each standing prefix, and sixteen drawn addresses.
pub fn look(t: Table, a: Arrays, seed: Draw, sums: Sums) -> Sums {
    let mut sums = sums;
    let list = a.list;
    let ask = |addr: u32| number(lookup(t, a, addr));
    for k in 0..linear::standing(t, list) {
        for j in 0..4 {
            let addr = edge(read_record(list, k), j);
            sums.take(ask(addr), linear::answer(t, list, addr));
        }
    }
    for j in 0..16 {
        let addr = drawn(seed, j);
        sums.take(ask(addr), linear::answer(t, list, addr));
    }
    sums
}
