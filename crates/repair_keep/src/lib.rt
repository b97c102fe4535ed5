// What is kept of a list that may be damaged: each record that is valid and larger than the last one kept.
#![tactic(auto)]

ghost use Rattle.std.specs.Prelude.{◌≡◌, min};
ghost use Rattle.repair_keep.specs.Keep.{Keeps, KeptIn};

use records::record::{key_of, read_record, write_record};
use routes::input::check_route;

// How many records are looked at: up to the route count, or to the end of the room if that is less.
pub fn looked(count: u32, room: usize) -> usize
    ensures { result ≡ min count room }
{
    usize::min(count as usize, room)
}

// The records of the first n that are kept, written to `out` end to end, and how many they are. `least` is 1 + the key of the
// last one kept.
pub fn keep(list: &[u8], n: usize, out: &mut [u8]) -> usize
    requires { Keeps list.now n out.old }
    ensures { KeptIn list.now n out.new result }
{
    let mut least: u64 = 0;
    let mut m = 0;
    for k in 0..n {
        let r = read_record(list, k);
        let key = key_of(r.addr, r.len);
        if let Ok(()) = check_route(r) {
            if least <= key {
                write_record(out, m, r);
                m += 1;
                least = key + 1;
            }
        }
    }
    m
}
