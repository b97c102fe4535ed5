// The test of a list: whole records, the first n of them good, and zero bytes after them.
ghost use Rattle.std.specs.Prelude.{◌*◌, ◌≤◌, length};
ghost use Rattle.bits.specs.Tab.{Tells};
ghost use Rattle.routes.specs.Record.{Listed};
ghost use Rattle.lists.specs.ListTest.{NoFaults};

use buffers_test::zeros::zeros;
use input_check::input;

// Whether each of the first n records is right.
fn all_right(list: &[u8], n: usize) -> bool
    requires { n * 8 ≤ length list.now }
    ensures { Tells result (NoFaults list.now n) }
{
    for k in 0..n {
        if input::check_record(list, k).is_err() {
            return false;
        }
    }
    true
}

// Whether the list holds n routes and nothing else.
pub fn list_ok(list: &[u8], n: usize) -> bool
    ensures { Tells result (Listed list.now n) }
{
    if list.len() % 8 != 0 {
        return false;
    }
    if 4096 < n {
        return false;
    }
    if list.len() < n * 8 {
        return false;
    }
    if !all_right(list, n) {
        return false;
    }
    zeros(list, n * 8, list.len())
}
