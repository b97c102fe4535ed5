// The record of a route, and what the check of an input says.
ghost use Rattle.std.specs.Prelude.{◌≤◌, length};

use crate::samples;
use input_check::input;
use records::record::write_record;
use refusals::Refused;
use routes::Route;
use std::io;
use vectors_shared::list::list_a;
use vectors_shared::shown::Hex;

fn said(rt: &impl Print, answer: Result<usize, Refused>) -> io::Result<()> {
    match answer {
        Ok(n) => println!(rt; "good {n}"),
        Err(e) => println!(rt; "{e}"),
    }
}

fn got(rt: &impl Print, answer: Result<Option<Route>, Refused>) -> io::Result<()> {
    match answer {
        Ok(Some(r)) => println!(rt; "route {} {} {} mark {}", r.addr, r.len, r.hop, r.mark),
        Ok(None) => println!(rt; "nothing"),
        Err(e) => println!(rt; "{e}"),
    }
}

// A route's record.
fn record(rt: &impl Print, r: Route) -> io::Result<()> {
    println!(rt; "record{}", Hex(&samples::one(r)))
}

fn checked(rt: &impl Print, bytes: &[u8]) -> io::Result<()> {
    said(rt, input::check_input(bytes))
}

fn read_back(rt: &impl Print, bytes: &[u8], k: usize) -> io::Result<()> {
    got(rt, input::route_at(bytes, k))
}

// The document's own record, list A whole, and one refusal of each kind.
pub fn run(rt: &impl Print) -> io::Result<()> {
    record(rt, samples::route(0x0A01_0280, 25, 0, 57))?;
    let a = list_a();
    checked(rt, &a)?;
    checked(rt, b"")?;
    checked(rt, b"nine byte")?;
    read_back(rt, &a, 4)?;
    read_back(rt, &a, 5)?;
    read_back(rt, b"nine byte", 0)
}

// An attached network: its record, and the route read back out of it.
pub fn attached(rt: &impl Print) -> io::Result<()> {
    let r = samples::route(0x0A01_0000, 16, 1, 31);
    record(rt, r)?;
    read_back(rt, &samples::one(r), 0)
}

// 10.0.0.0/8 to hop 20, and each of these routes after it.
pub fn refusals(rt: &impl Print) -> io::Result<()> {
    let first = samples::route(0x0A00_0000, 8, 0, 20);
    for second in [
        samples::route(0x0B00_0000, 33, 0, 0),
        samples::route(0x0B00_0001, 24, 2, 0),
        samples::route(0x0B00_0000, 24, 2, 0),
        samples::route(0x0B00_0000, 24, 2, 32767),
        samples::route(0x0B00_0000, 24, 255, 32767),
        samples::route(0x0A00_0000, 8, 1, 20),
        samples::route(0x0B00_0000, 24, 1, 32767),
        samples::route(0x0B00_0000, 24, 0, 32767),
        samples::route(0x0B00_0000, 24, 0, 32768),
        samples::route(0x0A00_0000, 8, 0, 21),
        samples::route(0x0A00_0000, 7, 0, 21),
        samples::route(0x0A00_0000, 9, 0, 21),
    ] {
        checked(rt, &samples::two(first, second))?;
    }
    Ok(())
}

// An input stays strict: 10.1.2.3/24 has bits past its length.
pub fn host_bits(rt: &impl Print) -> io::Result<()> {
    checked(rt, b"\x0A\x01\x02\x03\x18\x00\x00\x2C")
}

// As many routes of 24 bits as there is room for, one after the other.
fn many(list: &mut [u8])
    requires { length list.old ≤ 65536 }
{
    for k in 0..list.len() / 8 {
        write_record(list, k, samples::route((k as u32) * 256, 24, 0, 1));
    }
}

// 4,096 records are taken, and one more is not.
pub fn most(rt: &impl Print) -> io::Result<()> {
    let mut list = [0u8; 32768];
    many(&mut list);
    checked(rt, &list)?;
    let mut more = [0u8; 32776];
    many(&mut more);
    checked(rt, &more)
}
