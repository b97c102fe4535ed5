// Maps built, and lookups in them.
use crate::case::Case;
use std::io;
use vectors_shared::list;

fn shown(rt: &impl Print, word: &str, input: &[u8], addrs: &[u32]) -> io::Result<()> {
    let case = Case {
        maps: true,
        ..Case::plain()
    };
    case.play(rt, word, input, addrs)
}

// The source's figure, its nine prefixes as records: 0/0 to hop 6, 32/3 to 3, 44/6 to 9, 48/4 to 1, 64/2 to 3, 128/1 to 4, 224/3 to 7, 224/4
// to 8, 224/5 to 2. Looked up are 001010, as in the source, and an address of each.
pub fn figure(rt: &impl Print) -> io::Result<()> {
    let addrs = [
        0x2800_0000,
        0x2C00_0000,
        0x3C00_0000,
        0x6400_0000,
        0x8000_0000,
        0xE000_0000,
        0xE800_0000,
        0xF000_0000,
        0,
    ];
    shown(
        rt,
        "figure",
        b"\x00\x00\x00\x00\x00\x00\x00\x06\x20\x00\x00\x00\x03\x00\x00\x03\x2C\x00\x00\x00\x06\x00\x00\x09\
        \x30\x00\x00\x00\x04\x00\x00\x01\x40\x00\x00\x00\x02\x00\x00\x03\x80\x00\x00\x00\x01\x00\x00\x04\
        \xE0\x00\x00\x00\x03\x00\x00\x07\xE0\x00\x00\x00\x04\x00\x00\x08\xE0\x00\x00\x00\x05\x00\x00\x02",
        &addrs,
    )
}

// List A: two routes are found in the list alone.
pub fn list_a(rt: &impl Print) -> io::Result<()> {
    let addrs = [
        0x0A01_02C8,
        0x0A01_0205,
        0x0A01_0301,
        0x0A02_0001,
        0xC000_0201,
    ];
    shown(rt, "list a", &list::list_a(), &addrs)
}

// List A without its default route.
pub fn no_default(rt: &impl Print) -> io::Result<()> {
    shown(
        rt,
        "no default",
        &list::list_a()[8..],
        &[0x0A02_0001, 0xC000_0201],
    )
}
