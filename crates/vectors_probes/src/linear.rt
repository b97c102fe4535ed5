// A linear search over the records of a list: what a table must answer, from document 01's words alone.
ghost use Rattle.std.specs.Prelude.{◌*◌, ◌≤◌, length};

use records::record::read_record;
use routes::Route;
use sail::table::Table;

// How many records of the list are routes, and no more than it holds.
pub fn standing(t: Table, list: &[u8]) -> usize
    ensures { result * 8 ≤ length list.now }
{
    (t.count as usize).min(list.len() / 8)
}

// Whether the first len bits of two addresses agree.
fn agree(len: u32, a: u32, b: u32) -> bool {
    len <= 32 && bits::slot(len, a) == bits::slot(len, b)
}

// The longest of the first n routes that covers the address.
fn longest(list: &[u8], n: usize, addr: u32) -> Option<Route>
    requires { n * 8 ≤ length list.now }
{
    let mut best: Option<Route> = None;
    for k in 0..n {
        let r = read_record(list, k);
        let longer = match best {
            Some(b) => b.len <= r.len,
            None => true,
        };
        if longer && agree(u32::from(r.len), r.addr, addr) {
            best = Some(r);
        }
    }
    best
}

// Whether one of the first n routes is longer than p and has the address's first p bits: there is a cell more to read for it.
fn deeper(list: &[u8], n: usize, p: u32, addr: u32) -> bool
    requires { n * 8 ≤ length list.now }
{
    for k in 0..n {
        let r = read_record(list, k);
        if p < u32::from(r.len) && agree(p, r.addr, addr) {
            return true;
        }
    }
    false
}

// Hop and cells as one number: four times the hop, which is 0 for no route, and the cells.
pub fn answer(t: Table, list: &[u8], addr: u32) -> u64 {
    let g = t.geometry;
    let n = standing(t, list);
    let hop = match longest(list, n, addr) {
        Some(r) => u64::from(r.hop),
        None => 0,
    };
    let second = u64::from(deeper(list, n, g.p1, addr));
    let third = u64::from(deeper(list, n, g.p2, addr));
    hop * 4 + 1 + second + third
}
