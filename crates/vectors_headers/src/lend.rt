// Tables of list A, at either named geometry.
use crate::play::all;
use sail::arrays::{Arrays, ArraysMut};
use sail::geometry::Geometry;
use sail::table::Table;
use sail_load::load::load;
use sail_withdraw::withdraw;
use std::io;
use vectors_shared::list::list_a;

// A fine header, to 10.1.2.5, before there is a table: at a geometry that the arrays do not fit, and over zeros.
fn before(rt: &impl Print, other: Geometry, geometry: Geometry, a: Arrays) -> io::Result<()> {
    for geometry in [other, geometry] {
        all(
            rt,
            &[*b"\x45\x00\x00\x28\x00\x01\x40\x00\x02\x06\xaa\xc8\xc0\x00\x02\x01\x0a\x01\x02\x05"],
            Table { geometry, count: 0 },
            a,
        )?;
    }
    Ok(())
}

// On the loaded table. One packet from 192.168.0.1 to 192.168.0.199; five from 192.0.2.1 to 10.1.2.200, whose checksums are near the two zeros; nine to
// 10.1.2.5, with times to live of 2, 255, 1 and 0, first bytes of 46 and 65 hex, and wrong checksums. Then two of 19 bytes, and one of 24.
fn loaded(rt: &impl Print, t: Table, a: Arrays) -> io::Result<()> {
    all(
        rt,
        &[
            *b"\x45\x00\x00\x73\x00\x00\x40\x00\x40\x11\xb8\x61\xc0\xa8\x00\x01\xc0\xa8\x00\xc7",
            *b"\x45\x00\x00\x28\x6c\xfb\x40\x00\x40\x11\xfe\xff\xc0\x00\x02\x01\x0a\x01\x02\xc8",
            *b"\x45\x00\x00\x28\x6c\xfa\x40\x00\x40\x11\xff\x00\xc0\x00\x02\x01\x0a\x01\x02\xc8",
            *b"\x45\x00\x00\x28\x6c\xfc\x40\x00\x40\x11\xfe\xfe\xc0\x00\x02\x01\x0a\x01\x02\xc8",
            *b"\x45\x00\x00\x28\x6b\xfb\x40\x00\x40\x11\x00\x00\xc0\x00\x02\x01\x0a\x01\x02\xc8",
            *b"\x45\x00\x00\x28\x6b\xfb\x40\x00\x40\x11\xff\xff\xc0\x00\x02\x01\x0a\x01\x02\xc8",
            *b"\x45\x00\x00\x28\x00\x01\x40\x00\x02\x06\xaa\xc8\xc0\x00\x02\x01\x0a\x01\x02\x05",
            *b"\x45\x00\x00\x28\x00\x01\x40\x00\xff\x06\xad\xc7\xc0\x00\x02\x01\x0a\x01\x02\x05",
            *b"\x45\x00\x00\x28\x00\x01\x40\x00\x01\x06\xab\xc8\xc0\x00\x02\x01\x0a\x01\x02\x05",
            *b"\x45\x00\x00\x28\x00\x01\x40\x00\x00\x06\xac\xc8\xc0\x00\x02\x01\x0a\x01\x02\x05",
            *b"\x46\x00\x00\x28\x00\x01\x40\x00\x02\x06\xa9\xc8\xc0\x00\x02\x01\x0a\x01\x02\x05",
            *b"\x65\x00\x00\x28\x00\x01\x40\x00\x02\x06\x8a\xc8\xc0\x00\x02\x01\x0a\x01\x02\x05",
            *b"\x46\x00\x00\x28\x00\x01\x40\x00\x02\x06\xaa\xc8\xc0\x00\x02\x01\x0a\x01\x02\x05",
            *b"\x45\x00\x00\x28\x00\x01\x40\x00\x01\x06\xaa\xc8\xc0\x00\x02\x01\x0a\x01\x02\x05",
            *b"\x45\x00\x00\x28\x00\x01\x40\x00\x02\x06\xaa\xc9\xc0\x00\x02\x01\x0a\x01\x02\x05",
        ],
        t,
        a,
    )?;
    all(
        rt,
        &[
            *b"\x45\x00\x00\x28\x00\x01\x40\x00\x02\x06\xaa\xc8\xc0\x00\x02\x01\x0a\x01\x02",
            *b"\x46\x00\x00\x28\x00\x01\x40\x00\x02\x06\xa9\xc8\xc0\x00\x02\x01\x0a\x01\x02",
        ],
        t,
        a,
    )?;
    all(
        rt,
        &[
            *b"\x45\x00\x00\x28\x00\x01\x40\x00\x02\x06\xaa\xc8\xc0\x00\x02\x01\x0a\x01\x02\x05\xde\xad\xbe\xef",
        ],
        t,
        a,
    )
}

// To 192.168.0.199 once /0 is withdrawn.
fn no_route(rt: &impl Print, t: Table, a: Arrays) -> io::Result<()> {
    all(
        rt,
        &[*b"\x45\x00\x00\x73\x00\x00\x40\x00\x40\x11\xb8\x61\xc0\xa8\x00\x01\xc0\xa8\x00\xc7"],
        t,
        a,
    )
}

fn on(rt: &impl Print, other: Geometry, geometry: Geometry, a: &mut ArraysMut) -> io::Result<()> {
    before(rt, other, geometry, a.read())?;
    let fresh = Table { geometry, count: 0 };
    let made = load(
        fresh,
        &list_a(),
        a.list,
        a.first,
        a.second,
        a.third,
        a.own2,
        a.own3,
        a.long1,
        a.long2,
    )
    .unwrap_or(fresh);
    loaded(rt, made, a.read())?;
    let less = withdraw(
        made, a.list, a.first, a.second, a.third, a.own2, a.own3, a.long1, a.long2, 0, 0,
    );
    no_route(rt, less.table, a.read())
}

pub fn standard(rt: &impl Print) -> io::Result<()> {
    let mut list = [0u8; 64];
    let mut first = [0u16; 65536];
    let mut second = [0u16; 256];
    let mut third = [0u16; 256];
    let mut own2 = [0u32; 1];
    let mut own3 = [0u32; 1];
    let mut long1 = [0u16; 65536];
    let mut long2 = [0u16; 256];
    on(
        rt,
        Geometry { p1: 17, p2: 24 },
        Geometry::STANDARD,
        &mut ArraysMut {
            list: &mut list,
            first: &mut first,
            second: &mut second,
            third: &mut third,
            own2: &mut own2,
            own3: &mut own3,
            long1: &mut long1,
            long2: &mut long2,
        },
    )
}

pub fn small(rt: &impl Print) -> io::Result<()> {
    let mut list = [0u8; 64];
    let mut first = [0u16; 4096];
    let mut second = [0u16; 1024];
    let mut third = [0u16; 1024];
    let mut own2 = [0u32; 1];
    let mut own3 = [0u32; 1];
    let mut long1 = [0u16; 4096];
    let mut long2 = [0u16; 1024];
    on(
        rt,
        Geometry::STANDARD,
        Geometry::SMALL,
        &mut ArraysMut {
            list: &mut list,
            first: &mut first,
            second: &mut second,
            third: &mut third,
            own2: &mut own2,
            own3: &mut own3,
            long1: &mut long1,
            long2: &mut long2,
        },
    )
}
