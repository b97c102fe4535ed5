// Announce: a route is added to a table, or replaces the one of its prefix.
#![tactic(auto)]

ghost use Rattle.std.specs.Prelude.{[], ◌∷◌, ◌≡◌};
ghost use Rattle.bits.specs.Count.{bit};
ghost use Rattle.routes.specs.Said.{accepted};
ghost use Rattle.sail.specs.Lent.{lent};
ghost use Rattle.sail_announce.specs.Answers.{means_announce};
ghost use Rattle.sail_announce.specs.Contract.{MeetsAnnounce};

pub mod answers;

use crate::answers::{Announce, Announced};
use routes::Route;
use routes::prefix::clear_after;
use sail::table::Table;
use sail_add::add;
use sail_judge::announce::judge_announce;

// What putting a route into the list answers for the table, by whether its prefix stood and whether bits were cleared.
pub fn answer_of(stood: bool, cleared: bool) -> Announce
    ensures { means_announce result ≡ accepted (bit cleared ∷ bit stood ∷ []) }
{
    if stood {
        return Announce::Replaced(cleared);
    }
    Announce::Added(cleared)
}

// Adds the route to the prefix of len bits of addr, or replaces its hop and mark where one stands, and says which. Bits of
// addr after the length are cleared first, and an accepted answer says whether any were. The mark is 1 for an attached
// network. A refusal leaves the state and all that is lent as they were.
pub fn announce(
    t: Table,
    list: &mut [u8],
    first: &mut [u16],
    second: &mut [u16],
    third: &mut [u16],
    own2: &mut [u32],
    own3: &mut [u32],
    long1: &mut [u16],
    long2: &mut [u16],
    addr: u32,
    len: u8,
    hop: u16,
    mark: u8,
) -> Announced
    ensures { MeetsAnnounce t (lent list.old first.old second.old third.old
        own2.old own3.old long1.old long2.old) addr len hop mark
        result (lent list.new first.new second.new third.new
        own2.new own3.new long1.new long2.new) }
{
    let a = clear_after(addr, len);
    let r = Route {
        addr: a,
        len,
        mark,
        hop,
    };
    let mut ws = [0u64; 4096];
    let mut par = [0u16; 4353];
    let f = judge_announce(
        t, list, first, second, third, own2, own3, long1, long2, r, &mut ws, &mut par,
    );
    if f.number != 0 {
        return Announced {
            answer: Announce::Refused(f.number),
            table: t,
        };
    }
    let u = add(
        t, list, first, second, third, own2, own3, long1, long2, r, f, &mut ws, &mut par,
    );
    Announced {
        answer: answer_of(f.stands, a != addr),
        table: u,
    }
}
