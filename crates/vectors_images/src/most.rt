// An image of 4,096 routes: a new prefix is one too many, and a replaced one is none.
ghost use Rattle.std.specs.Prelude.{◌≤◌, length};

use crate::play::play;
use records::record::write_record;
use routes::Route;
use std::io;

// As many host routes as the list has room for: 0.0.0.0, 0.16.0.0, 0.32.0.0, and on.
fn hosts(list: &mut [u8])
    requires { length list.old ≤ 32768 }
{
    for k in 0..list.len() / 8 {
        let route = Route {
            addr: (k as u32) << 20,
            len: 32,
            mark: 0,
            hop: 9,
        };
        write_record(list, k, route);
    }
}

pub fn run(rt: &impl Print) -> io::Result<()> {
    let mut list = [0u8; 32768];
    let mut ws = [9u32; 74547];
    let mut hs = [9u16; 4096];
    hosts(&mut list);
    let _ = tree_build::build(&list, &mut ws, &mut hs);
    play(
        rt,
        b"test; announce 0.0.0.1/32 to 5; announce 255.240.0.0/32 to 5; withdraw 255.240.0.0/32; announce 0.0.0.0/0 to 5; test",
        &mut ws,
        &mut hs,
    )
}
