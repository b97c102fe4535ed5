// An answer as one number of 64 bits, from plain values. Which value stands in which bits is said with each definition in specs/; the crates above take
// the answers of the calls apart.
#![tactic(auto)]

ghost use Rattle.std.specs.Prelude.{◌≡◌, ◌+◌, ◌*◌, ◌%◌, ◌^◌, ◌≤◌, ◌<◌};
ghost use Rattle.bits.specs.Count.{bit};
ghost use Rattle.numbered.specs.Numbers.{told_so};
ghost use Rattle.packing.specs.Pack.{pack_none};

use numbered::Numbered;
use routes::Route;

// The low 16 bits of a number.
fn low_half(x: u32) -> u64
    ensures { (result ≡ x % 65536) × (result < 65536) }
{
    u64::from(x) % 65536
}

// A refusal with an index.
pub fn refused_at(n: u8, k: usize) -> u64
    ensures { result ≡ n + 256 + k % 2 ^ 32 * 2 ^ 32 }
{
    u64::from(n) + 256 + (k as u64) % 4294967296 * 4294967296
}

// A refusal: its number, and the index of a record, if it has one.
pub fn refused<E: Numbered>(e: E) -> u64
    ensures { result ≡ pack_none (told_so (E.by_number e)) }
{
    let r = e.by_number();
    match r.at {
        Some(k) => refused_at(r.number, k),
        None => u64::from(r.number),
    }
}

// A lookup that counts its reads, and its hop; hop 0 is no route.
pub fn found_number(reads: u32, hop: u16) -> u64
    ensures { result ≡ reads * 256 + hop * 65536 }
{
    u64::from(reads) * 256 + u64::from(hop) * 65536
}

// A change of a table that was accepted: whether bits were cleared, whether a route was replaced, and the route count after it.
pub fn changed(cleared: bool, replaced: bool, count: u32) -> u64
    ensures { result ≡ bit cleared * 512 + bit replaced * 256 + count * 65536 }
{
    u64::from(cleared) * 512 + u64::from(replaced) * 256 + u64::from(count) * 65536
}

// A table's report: its route count, and both needs.
pub fn report_number(routes: u32, second: u32, third: u32) -> u64
    ensures { result ≡ routes % 65536 * 65536 + second % 65536 * 2 ^ 32 + third % 65536 * 2 ^ 48 }
{
    low_half(routes) * 65536 + low_half(second) * 4294967296 + low_half(third) * 281474976710656
}

// An image: whether a hop was replaced, and the nodes and the hops in use.
pub fn used(replaced: bool, nodes: u32, hops: u32) -> u64
    ensures { result ≡ bit replaced * 256 + hops % 65536 * 65536 + nodes * 2 ^ 32 }
{
    u64::from(replaced) * 256 + low_half(hops) * 65536 + u64::from(nodes) * 4294967296
}

// A run of a list: its first record, and how many.
pub fn run_number(start: usize, count: usize) -> u64
    ensures { result ≡ start % 65536 * 65536 + count % 65536 * 2 ^ 32 }
{
    (start as u64) % 65536 * 65536 + (count as u64) % 65536 * 4294967296
}

// A route by its four values.
pub fn route_number(r: Route) -> u64
    ensures { result ≡ r.len % 128 * 256 + r.mark % 2 * 32768 + r.hop * 65536 + r.addr * 2 ^ 32 }
{
    u64::from(r.len) % 128 * 256
        + u64::from(r.mark) % 2 * 32768
        + u64::from(r.hop) * 65536
        + u64::from(r.addr) * 4294967296
}
