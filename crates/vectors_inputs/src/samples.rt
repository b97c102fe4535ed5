// Routes, inputs of one and two records, and list A with a route attached.
use records::record;
use routes::Route;
use vectors_shared::list;

// List A with 10.1.0.0/16 attached: one byte is another.
pub fn attached_a() -> [u8; 40] {
    let mut a = list::list_a();
    a[21] = 1;
    a
}

pub fn route(addr: u32, len: u8, mark: u8, hop: u16) -> Route {
    Route {
        addr,
        len,
        mark,
        hop,
    }
}

// One record's bytes.
pub fn one(r: Route) -> [u8; 8] {
    let mut out = [0u8; 8];
    record::write_record(&mut out, 0, r);
    out
}

// Two records' bytes.
pub fn two(a: Route, b: Route) -> [u8; 16] {
    let mut out = [0u8; 16];
    record::write_record(&mut out, 0, a);
    record::write_record(&mut out, 1, b);
    out
}

// A route on a port of our own, and one behind a neighbour.
pub fn attached(addr: u32, len: u8) -> Route {
    route(addr, len, 1, 1)
}

pub fn behind(addr: u32, len: u8) -> Route {
    route(addr, len, 0, 2)
}
