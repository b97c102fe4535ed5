// Directed broadcast: whether an address is the highest one of the attached network that it lies in. The older rule counts networks of 0 to 31
// bits. The newer leaves out those of 31, whose two addresses are two hosts (RFC 3021).
#![tactic(auto)]

ghost use Rattle.std.specs.Prelude.{◌≡◌, eqb};
ghost use Rattle.routes.specs.Record.{GoodInput, routes_in};
ghost use Rattle.routes.specs.Route.{Prefix};
ghost use Rattle.broadcast.specs.Cast.{version_fine, last_len, highest, is_broadcast};
ghost use Rattle.broadcast.specs.Contract.{MeetsBroadcast};

use input_check::input::check_input;
use longest::longest_record;
use records::record;
use refusals::{Refusal, Refused};
use routes::Route;

// Whether a version is one of the two.
#[tactic(auto, unfolding(crate::specs::Cast::version_fine))]
fn version_ok(version: u32) -> bool
    ensures { result ≡ version_fine version }
{
    version == 1 || version == 2
}

// The longest length of a network that has a broadcast.
#[tactic(auto, unfolding(crate::specs::Cast::last_len))]
fn last_len(version: u32) -> u32
    ensures { result ≡ last_len version }
{
    if version == 1 { 31 } else { 30 }
}

// The highest address of a route: every bit that the mask of its length leaves is one.
fn highest(r: Route) -> u32
    requires { Prefix r.addr r.len }
    ensures { result ≡ highest r }
{
    r.addr + (0xFFFF_FFFF - bits::mask(u32::from(r.len)))
}

// Whether a route is to a network on our own port.
fn attached(r: Route) -> bool
    ensures { result ≡ eqb r.mark 1 }
{
    r.mark == 1
}

// Whether the longest route that covers the address is attached, not too long, and ends at it.
fn is_broadcast(version: u32, input: &[u8], n: usize, addr: u32) -> bool
    requires { GoodInput input.now n }
    ensures { result ≡ is_broadcast version (routes_in input.now) addr }
{
    let Some(k) = longest_record(input, n, addr, 0) else {
        return false;
    };
    let r = record::read_record(input, k);
    if !attached(r) {
        return false;
    }
    if last_len(version) < u32::from(r.len) {
        return false;
    }
    highest(r) == addr
}

// Whether an address is a directed broadcast under a version's rule. The version is judged first, whatever the input.
pub fn broadcast(version: u32, input: &[u8], addr: u32) -> Result<bool, Refused>
    ensures { MeetsBroadcast version input.now addr result }
{
    if !version_ok(version) {
        return Err(Refusal::Version.into());
    }
    let n = check_input(input)?;
    Ok(is_broadcast(version, input, n, addr))
}
