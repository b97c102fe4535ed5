// What is wrong with a route by itself.
ghost use Rattle.std.specs.Prelude.{◌≡◌};
ghost use Rattle.refusals.specs.Numbers.{fault_of};
ghost use Rattle.routes.specs.Input.{proper_prefix, hop_fine, route_fault};

use crate::Route;
use refusals::Refusal;

// Whether a prefix has at most 32 bits, and no bit set after them.
pub fn prefix_ok(addr: u32, len: u8) -> bool
    ensures { result ≡ proper_prefix addr len }
{
    let l = u32::from(len);
    if 32 < l {
        return false;
    }
    bits::cut(l, addr) == addr
}

// Whether a hop is 1 to 32,767.
pub fn hop_ok(hop: u16) -> bool
    ensures { result ≡ hop_fine hop }
{
    if hop == 0 {
        return false;
    }
    hop <= 32767
}

// What is wrong with a route by itself, in order: its prefix (3), its hop (4), its mark (10).
pub fn check_route(r: Route) -> Result<(), Refusal>
    ensures { fault_of result ≡ route_fault r }
{
    if !prefix_ok(r.addr, r.len) {
        return Err(Refusal::Prefix);
    }
    if !hop_ok(r.hop) {
        return Err(Refusal::Hop);
    }
    if 1 < r.mark {
        return Err(Refusal::Record);
    }
    Ok(())
}
