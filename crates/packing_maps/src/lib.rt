// The answers of the calls on bit maps.
#![tactic(auto)]

ghost use Rattle.std.specs.Prelude.{[], ◌≡◌};
ghost use Rattle.basic.specs.Calls.{if_hop, pack_hop};
ghost use Rattle.numbered.specs.Numbers.{said_numbered};
ghost use Rattle.packing.specs.Pack.{pack_none};

use numbered::Numbered;
use packing::refused;

pub fn hop_found<E: Numbered>(a: Result<Option<u16>, E>) -> u64
    ensures { result ≡ pack_hop (said_numbered E.by_number if_hop a) }
{
    match a {
        Ok(hop) => u64::from(hop.unwrap_or(0)) * 65536,
        Err(e) => refused(e),
    }
}

pub fn answered<E: Numbered>(a: Result<(), E>) -> u64
    ensures { result ≡ pack_none (said_numbered E.by_number (λ _. []) a) }
{
    match a {
        Ok(()) => 0,
        Err(why) => refused(why),
    }
}
