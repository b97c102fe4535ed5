// A message: prefixes that are withdrawn, and then prefixes that are announced with one hop.
#![tactic(auto)]

ghost use Rattle.sail.specs.Lent.{lent};
ghost use Rattle.chain.specs.List.{Scratch};
ghost use Rattle.fields.specs.Entry.{FieldFrom};
ghost use Rattle.fields.specs.Message.{HopOk};
ghost use Rattle.refusals.specs.Numbers.{fault_of};
ghost use Rattle.sail_deal.specs.Dealt.{Ready};
ghost use Rattle.sail_update.specs.Contract.{MeetsUpdate};
ghost use Rattle.sail_update.specs.Steps.{UpdateJudged, AllGone, AllCame};

pub mod answers;

use crate::answers::{Update, Updated};
use fields::entry::read_entry;
use fields::message::check_message;
use refusals::Refusal;
use routes::Route;
use sail::arrays::Arrays;
use sail::table::Table;
use sail_deal::{announce_sound, withdraw_sound};
use sail_sizes::check_sizes;
use sail_sound::test::sound;

// What withdrawals leave: the state, and how many entries there were.
#[derive(Clone, Copy)]
pub struct Gone {
    pub table: Table,
    pub entries: u32,
}

// What announcements leave: the number of the refusal that stopped them, or 0; how many entries were dealt with; and the state.
#[derive(Clone, Copy)]
pub struct Came {
    pub number: u8,
    pub entries: u32,
    pub table: Table,
}

// Every prefix of a field is withdrawn; one that does not stand is passed over.
fn withdraw_all(
    t: Table,
    list: &mut [u8],
    first: &mut [u16],
    second: &mut [u16],
    third: &mut [u16],
    own2: &mut [u32],
    own3: &mut [u32],
    long1: &mut [u16],
    long2: &mut [u16],
    field: &[u8],
    ws: &mut [u64],
    par: &mut [u16],
) -> Gone
    requires ready { Ready t (lent list.old first.old second.old third.old own2.old own3.old long1.old long2.old) ws.old par.old }
    requires field_from { FieldFrom field.now 0 }
    ensures { AllGone t (lent list.old first.old second.old third.old
        own2.old own3.old long1.old long2.old) field.now result.entries result.table
        (lent list.new first.new second.new third.new
        own2.new own3.new long1.new long2.new) ws.new par.new }
{
    let n = field.len();
    let mut u = t;
    let mut at = 0;
    let mut k = 0;
    while at < n {
        let e = read_entry(field, at);
        let v = withdraw_sound(
            u, list, first, second, third, own2, own3, long1, long2, e.addr, e.len, ws, par,
        );
        u = v;
        at = e.next;
        k = std::num::wrapping_add_u32(k, 1);
    }
    Gone {
        table: u,
        entries: k,
    }
}

// Every prefix of a field is announced with the hop and mark 0, after `from` entries; the first refusal stops.
fn announce_all(
    t: Table,
    list: &mut [u8],
    first: &mut [u16],
    second: &mut [u16],
    third: &mut [u16],
    own2: &mut [u32],
    own3: &mut [u32],
    long1: &mut [u16],
    long2: &mut [u16],
    field: &[u8],
    hop: u16,
    from: u32,
    ws: &mut [u64],
    par: &mut [u16],
) -> Came
    requires ready { Ready t (lent list.old first.old second.old third.old own2.old own3.old long1.old long2.old) ws.old par.old }
    requires field_from { FieldFrom field.now 0 × HopOk hop }
    ensures { AllCame t (lent list.old first.old second.old third.old
        own2.old own3.old long1.old long2.old) field.now hop from
        result.number result.entries result.table (lent list.new first.new second.new third.new
        own2.new own3.new long1.new long2.new) }
{
    let n = field.len();
    let mut u = t;
    let mut at = 0;
    let mut k = from;
    while at < n {
        let e = read_entry(field, at);
        let r = Route {
            addr: e.addr,
            len: e.len,
            mark: 0,
            hop,
        };
        let d = announce_sound(
            u, list, first, second, third, own2, own3, long1, long2, r, ws, par,
        );
        let v = d.table;
        if d.number != 0 {
            return Came {
                number: d.number,
                entries: k,
                table: v,
            };
        }
        u = v;
        at = e.next;
        k = std::num::wrapping_add_u32(k, 1);
    }
    Came {
        number: 0,
        entries: k,
        table: u,
    }
}

// Why a whole message is refused: 1, 2, 5, 17 or 4. Where it is dealt with, the words of the list and their chain are then in `ws` and
// `par`.
fn judge_update(
    t: Table,
    list: &[u8],
    first: &[u16],
    second: &[u16],
    third: &[u16],
    own2: &[u32],
    own3: &[u32],
    long1: &[u16],
    long2: &[u16],
    withdrawn: &[u8],
    reach: &[u8],
    hop: u16,
    ws: &mut [u64],
    par: &mut [u16],
) -> Result<(), Refusal>
    requires { Scratch ws.old par.old }
    ensures { UpdateJudged t (lent list.now first.now second.now third.now
        own2.now own3.now long1.now long2.now) withdrawn.now reach.now hop (fault_of result)
        ws.new par.new }
{
    let arrays = Arrays {
        list,
        first,
        second,
        third,
        own2,
        own3,
        long1,
        long2,
    };
    check_sizes(t, arrays)?;
    if !sound(
        t, list, first, second, third, own2, own3, long1, long2, ws, par,
    ) {
        return Err(Refusal::Unsound);
    }
    check_message(withdrawn, reach, hop)
}

// A message is dealt with: all bytes of both fields are checked first, then prefixes are withdrawn and announced, in field order.
pub fn update(
    t: Table,
    list: &mut [u8],
    first: &mut [u16],
    second: &mut [u16],
    third: &mut [u16],
    own2: &mut [u32],
    own3: &mut [u32],
    long1: &mut [u16],
    long2: &mut [u16],
    withdrawn: &[u8],
    reach: &[u8],
    hop: u16,
) -> Updated
    ensures { MeetsUpdate t (lent list.old first.old second.old third.old
        own2.old own3.old long1.old long2.old) withdrawn.now reach.now hop
        result (lent list.new first.new second.new third.new
        own2.new own3.new long1.new long2.new) }
{
    let mut ws = [0u64; 4096];
    let mut par = [0u16; 4353];
    if let Err(why) = judge_update(
        t, list, first, second, third, own2, own3, long1, long2, withdrawn, reach, hop, &mut ws,
        &mut par,
    ) {
        return Updated {
            answer: Update::Refused(why.number()),
            table: t,
        };
    }
    let g = withdraw_all(
        t, list, first, second, third, own2, own3, long1, long2, withdrawn, &mut ws, &mut par,
    );
    let d = announce_all(
        g.table, list, first, second, third, own2, own3, long1, long2, reach, hop, g.entries,
        &mut ws, &mut par,
    );
    let u = d.table;
    if d.number != 0 {
        return Updated {
            answer: Update::Stopped(d.number, d.entries),
            table: u,
        };
    }
    Updated {
        answer: Update::Done(d.entries),
        table: u,
    }
}
