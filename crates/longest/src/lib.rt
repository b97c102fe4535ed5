// The longest record that covers an address, found in an ascending list by halving. No list is scanned, and nothing is built.
#![tactic(auto)]

ghost use Rattle.std.specs.Prelude.{◌≡◌, ◌+◌, ◌≤◌};
ghost use Rattle.bits.specs.Slot.{cut};
ghost use Rattle.routes.specs.Record.{Records};
ghost use Rattle.routes.specs.Route.{key_of};
ghost use Rattle.lists.specs.Place.{place_of};
ghost use Rattle.longest.specs.Longest.{Shared, LongestRecord};
ghost use Rattle.longest.specs.Contract.{MeetsLongest};

use input_check::input::check_input;
use lists::place::place;
use records::record;
use refusals::Refused;
use routes::Route;

// A length as a byte.
fn narrow(len: u32) -> u8
    requires { len ≤ 32 }
    ensures { result ≡ len }
{
    len as u8
}

// How many of the first bits of two addresses are the same.
fn shared(a: u32, b: u32) -> u32
    ensures { Shared a b result }
{
    u32::leading_zeros(a ^ b)
}

// How many of n records do not come after the first `len` bits of an address.
fn records_to(list: &[u8], n: usize, addr: u32, len: u32) -> usize
    requires { Records list.now n × (len ≤ 32) }
    ensures { (result ≡ place_of list.now n (key_of (cut len addr) len + 1)) × (result ≤ n) }
{
    place(
        list,
        n,
        record::key_of(bits::cut(len, addr), narrow(len)) + 1,
    )
}

// The index of the longest of n records that has at least `low` bits and covers an address; None where there is none. No record of m bits
// or more covers it. The last record up to the first m - 1 bits covers it, and then it is the longest; or any that covers it is no longer
// than what the two share.
pub fn longest_record(list: &[u8], n: usize, addr: u32, low: u32) -> Option<usize>
    requires { Records list.now n }
    ensures { LongestRecord list.now n addr low result }
{
    let mut m = 33;
    while low < m {
        let k = records_to(list, n, addr, m - 1);
        if k == 0 {
            return None;
        }
        let r = record::read_record(list, k - 1);
        let len = u32::from(r.len);
        let same = shared(r.addr, addr);
        if len <= same {
            if len < low {
                return None;
            }
            return Some(k - 1);
        }
        m = same + 1;
    }
    None
}

// The longest route of an input that covers an address; None where none does.
pub fn longest(bytes: &[u8], addr: u32) -> Result<Option<Route>, Refused>
    ensures { MeetsLongest bytes.now addr result }
{
    let n = check_input(bytes)?;
    let Some(k) = longest_record(bytes, n, addr, 0) else {
        return Ok(None);
    };
    Ok(Some(record::read_record(bytes, k)))
}
