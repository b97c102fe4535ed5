// Lookup in bit maps: down from the longest length, first in the record list, then in the maps.
#![tactic(auto)]

ghost use Rattle.std.specs.Prelude.{◌≡◌, length};
ghost use Rattle.routes.specs.Record.{GoodInput, routes_in};
ghost use Rattle.standing.specs.Down.{down};
ghost use Rattle.basic.specs.Maps.{MapSizes};
ghost use Rattle.basic.specs.Walk.{mapped, as_met, basic_walk, met_said};
ghost use Rattle.basic.specs.Calls.{means_basic_found};
ghost use Rattle.basic.specs.Contract.{MeetsBasicLookup};

use basic::check::check;
use basic::maps::mapped;
use longest::longest_record;
use records::record;
use refusals::{Refusal, Refused};
use routes::input::hop_ok;

// The levels 16 to 0: the hop of the first set bit.
fn down(bits: &[u8], cells: &[u16], addr: u32) -> Option<u16>
    requires { MapSizes (length bits.now) (length cells.now) }
    ensures { as_met result ≡ down (mapped bits.now cells.now addr) 17 }
{
    for l in (0..17).rev() {
        if let Some(hop) = mapped(bits, cells, addr, l) {
            return Some(hop);
        }
    }
    None
}

// All levels: the hop of the first that has one.
pub fn walk(input: &[u8], n: usize, bits: &[u8], cells: &[u16], addr: u32) -> Option<u16>
    requires { GoodInput input.now n × MapSizes (length bits.now) (length cells.now) }
    ensures { as_met result ≡ basic_walk (routes_in input.now) bits.now cells.now addr }
{
    match longest_record(input, n, addr, 17) {
        Some(k) => Some(record::read_record(input, k).hop),
        None => down(bits, cells, addr),
    }
}

// What the walk says.
pub fn found_of(met: Option<u16>) -> Result<Option<u16>, Refused>
    ensures { means_basic_found result ≡ met_said (as_met met) }
{
    let Some(hop) = met else {
        return Ok(None);
    };
    if !hop_ok(hop) {
        return Err(Refusal::Broken.into());
    }
    Ok(Some(hop))
}

// The hop of the longest route that covers the address.
pub fn lookup(input: &[u8], bits: &[u8], cells: &[u16], addr: u32) -> Result<Option<u16>, Refused>
    ensures { MeetsBasicLookup input.now bits.now cells.now addr result }
{
    let n = check(input, bits.len(), cells.len())?;
    found_of(walk(input, n, bits, cells, addr))
}
