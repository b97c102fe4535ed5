// The worked cases of directed broadcast.
use crate::{samples, told};
use std::io;

// RFC 3021's link of two hosts, attached: 192.0.2.0/31. Only the older rule takes its upper address.
fn two_hosts(rt: &impl Print) -> io::Result<()> {
    let list = samples::one(samples::attached(0xC000_0200, 31));
    println!(rt; "192.0.2.0/31")?;
    told::both(rt, &list, &[0xC000_0201, 0xC000_0200, 0xC000_0202])
}

// 192.0.2.4/30: its last address under both.
fn four(rt: &impl Print) -> io::Result<()> {
    let list = samples::one(samples::attached(0xC000_0204, 30));
    println!(rt; "192.0.2.4/30")?;
    told::both(rt, &list, &[0xC000_0207, 0xC000_0206, 0xC000_0204])
}

// 10.0.0.0/24, whose last address has a route of its own, behind a neighbour or attached: a route of 32 bits has no broadcast.
fn host_of_its_own(rt: &impl Print) -> io::Result<()> {
    let net = samples::attached(0x0A00_0000, 24);
    let last = 0x0A00_00FF;
    println!(rt; "10.0.0.0/24 and 10.0.0.255/32")?;
    told::both(rt, &samples::one(net), &[last])?;
    told::both(rt, &samples::two(net, samples::behind(last, 32)), &[last])?;
    told::both(rt, &samples::two(net, samples::attached(last, 32)), &[last])
}

// 10.0.0.0/24 with its upper half behind a neighbour: the longest route decides, and 10.0.0.127 is the last of no route.
fn longer_inside(rt: &impl Print) -> io::Result<()> {
    let net = samples::attached(0x0A00_0000, 24);
    let addrs = [0x0A00_00FF, 0x0A00_007F];
    println!(rt; "10.0.0.0/24 and 10.0.0.128/25 behind")?;
    told::both(
        rt,
        &samples::two(net, samples::behind(0x0A00_0080, 25)),
        &addrs,
    )?;
    println!(rt; "10.0.0.0/24 and 10.0.0.128/25")?;
    told::both(
        rt,
        &samples::two(net, samples::attached(0x0A00_0080, 25)),
        &addrs,
    )
}

// The same network, not attached.
fn behind(rt: &impl Print) -> io::Result<()> {
    let list = samples::one(samples::behind(0x0A00_0000, 24));
    println!(rt; "10.0.0.0/24 behind")?;
    told::both(rt, &list, &[0x0A00_00FF])
}

// 0.0.0.0/0, attached: the last address of all.
fn all(rt: &impl Print) -> io::Result<()> {
    let list = samples::one(samples::attached(0, 0));
    println!(rt; "0.0.0.0/0")?;
    told::both(rt, &list, &[0xFFFF_FFFF, 0x0AFF_FFFF, 0])
}

// No route at all.
fn none(rt: &impl Print) -> io::Result<()> {
    println!(rt; "no route")?;
    told::both(rt, b"", &[0xFFFF_FFFF])
}

// 23 comes first, whatever the input: of nine bytes, or with a mark of 2. Then the input's.
fn refusals(rt: &impl Print) -> io::Result<()> {
    println!(rt; "nine bytes")?;
    told::versions(rt, &[0, 3, u32::MAX, 1, 2], b"nine byte", 0)?;
    let mut list = samples::one(samples::attached(0xC000_0200, 31));
    list[5] = 2;
    println!(rt; "mark 2")?;
    told::versions(rt, &[3, 1, 2], &list, 0xC000_0201)
}

pub fn run(rt: &impl Print) -> io::Result<()> {
    two_hosts(rt)?;
    four(rt)?;
    host_of_its_own(rt)?;
    longer_inside(rt)?;
    behind(rt)?;
    all(rt)?;
    none(rt)?;
    refusals(rt)
}
