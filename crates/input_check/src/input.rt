// The check of a record input, record by record, and a route read back out of one.
ghost use Rattle.std.specs.Prelude.{◌≡◌, ◌+◌, ◌*◌, ◌≤◌, length};
ghost use Rattle.refusals.specs.Numbers.{fault_of};
ghost use Rattle.routes.specs.Input.{fault_at};
ghost use Rattle.routes.specs.Contract.{MeetsCheckInput, MeetsRouteAt};

use records::record;
use refusals::{Refusal, Refused};
use routes::Route;
use routes::input::check_route;

// What is wrong with record k: by itself, or with its place after the one before. It is put into its callers' loops: a call for each record
// takes a third longer.
#[inline(always)]
pub fn check_record(list: &[u8], k: usize) -> Result<(), Refusal>
    requires { (k + 1) * 8 ≤ length list.now }
    ensures { fault_of result ≡ fault_at list.now k }
{
    check_route(record::read_record(list, k))?;
    if k == 0 {
        return Ok(());
    }
    if record::key_at(list, k - 1) < record::key_at(list, k) {
        return Ok(());
    }
    Err(Refusal::Record)
}

// So many good records; or the first refusal, with the index of its record, or the number of whole records where the length is wrong.
pub fn check_input(bytes: &[u8]) -> Result<usize, Refused>
    ensures { MeetsCheckInput bytes.now result }
{
    let n = bytes.len() / 8;
    if bytes.len() % 8 != 0 {
        return Err(Refusal::Record.at(n));
    }
    for k in 0..n {
        if let Err(why) = check_record(bytes, k) {
            return Err(why.at(k));
        }
    }
    if 4096 < n {
        return Err(Refusal::Room.into());
    }
    Ok(n)
}

// None where the input has no such record.
pub fn route_at(bytes: &[u8], index: usize) -> Result<Option<Route>, Refused>
    ensures { MeetsRouteAt bytes.now index result }
{
    let n = check_input(bytes)?;
    if n <= index {
        return Ok(None);
    }
    Ok(Some(record::read_record(bytes, index)))
}
