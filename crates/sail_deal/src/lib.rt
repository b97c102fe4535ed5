// One prefix more or less in a table that is known to be sound, with the words of its list and their chain at hand; what is left is
// sound again, and the chain is that of its list.
#![tactic(auto)]

ghost use Rattle.std.specs.Prelude.{◌≡◌};
ghost use Rattle.routes.specs.Route.{Prefix};
ghost use Rattle.sail.specs.Lent.{lent};
ghost use Rattle.sail_theory.specs.Cases.{Proper};
ghost use Rattle.sail_deal.specs.Dealt.{Ready, IsIn, stands_so, RouteDealt, PrefixDealt};

use records::record::read_record;
use routes::Route;
use sail::table::Table;
use sail_add::add;
use sail_judge::announce::judge_room;
use sail_judge::withdraw::find_record;
use sail_take::take;

// What an announcement leaves: the number of its refusal, or 0, and the state.
#[derive(Clone, Copy)]
pub struct Turned {
    pub number: u8,
    pub table: Table,
}

// Whether a prefix that stands as record k has the hop and the mark of `r`.
fn stands_so(list: &[u8], k: usize, stands: bool, r: Route) -> bool
    requires { IsIn list.now k stands }
    ensures { result ≡ stands_so list.now k stands r }
{
    if stands {
        let s = read_record(list, k);
        if s.hop == r.hop {
            return s.mark == r.mark;
        }
    }
    false
}

// The announcement of a fine route: refused with 6, 7 or 8, or added. One that stands as it is announced is passed over: so a message
// costs no more than its different prefixes.
pub fn announce_sound(
    t: Table,
    list: &mut [u8],
    first: &mut [u16],
    second: &mut [u16],
    third: &mut [u16],
    own2: &mut [u32],
    own3: &mut [u32],
    long1: &mut [u16],
    long2: &mut [u16],
    r: Route,
    ws: &mut [u64],
    par: &mut [u16],
) -> Turned
    requires proper { Proper t (lent list.old first.old second.old third.old own2.old own3.old long1.old long2.old) r }
    requires ready { Ready t (lent list.old first.old second.old third.old own2.old own3.old long1.old long2.old) ws.old par.old }
    ensures { RouteDealt t (lent list.old first.old second.old third.old
        own2.old own3.old long1.old long2.old) r result.number result.table
        (lent list.new first.new second.new third.new
        own2.new own3.new long1.new long2.new) ws.new par.new }
{
    let f = judge_room(
        t,
        list,
        first,
        second,
        own2,
        own3,
        r,
        own2.len(),
        own3.len(),
    );
    if f.number != 0 {
        return Turned {
            number: f.number,
            table: t,
        };
    }
    if stands_so(list, f.at, f.stands, r) {
        return Turned {
            number: 0,
            table: t,
        };
    }
    let u = add(
        t, list, first, second, third, own2, own3, long1, long2, r, f, ws, par,
    );
    Turned {
        number: 0,
        table: u,
    }
}

// The withdrawal of a prefix: taken out, or passed over where it does not stand.
pub fn withdraw_sound(
    t: Table,
    list: &mut [u8],
    first: &mut [u16],
    second: &mut [u16],
    third: &mut [u16],
    own2: &mut [u32],
    own3: &mut [u32],
    long1: &mut [u16],
    long2: &mut [u16],
    addr: u32,
    len: u8,
    ws: &mut [u64],
    par: &mut [u16],
) -> Table
    requires prefix { Prefix addr len }
    requires ready { Ready t (lent list.old first.old second.old third.old own2.old own3.old long1.old long2.old) ws.old par.old }
    ensures { PrefixDealt t (lent list.old first.old second.old third.old
        own2.old own3.old long1.old long2.old) addr len result
        (lent list.new first.new second.new third.new
        own2.new own3.new long1.new long2.new) ws.new par.new }
{
    let f = find_record(list, t.count as usize, addr, len);
    if f.number != 0 {
        return t;
    }
    take(
        t, list, first, second, third, own2, own3, long1, long2, addr, len, f.at, ws, par,
    )
}
