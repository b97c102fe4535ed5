// The judge of an announcement: whether it is refused, and where it is not, what was found on the way.
ghost use Rattle.std.specs.Prelude.{◌&&◌, ◌≡◌, ◌≤◌, leb, length};
ghost use Rattle.chain.specs.List.{Scratch};
ghost use Rattle.sail.specs.Lent.{lent};
ghost use Rattle.sail.specs.Sound.{used};
ghost use Rattle.sail_judge.specs.Chain.{ChainLeft};
ghost use Rattle.sail_judge.specs.Announce.{RoomReady, room_terms, RoomJudged, AnnounceJudged};

use lists::edit;
use lists::place::place;
use records::record;
use routes::Route;
use routes::input::check_route;
use sail::arrays::Arrays;
use sail::table::Table;
use sail_chunks::opening::{Opening, nothing, to_open};
use sail_sizes::check_sizes;
use sail_sound::report::in_use;
use sail_sound::test::sound;

// The number of the refusal. Where it is 0: the place of the route's key in the list, whether its prefix stands, and what is to
// be opened for it.
#[derive(Clone, Copy)]
pub struct AnnounceVerdict {
    pub number: u8,
    pub at: usize,
    pub stands: bool,
    pub opens: Opening,
}

// Whether a chunk is to be opened, and as many as the limit are in use. They are counted only where one is to be opened.
fn wanting(opens: bool, own: &[u32], limit: usize) -> bool
    requires { length own.now ≤ 4096 }
    ensures { result ≡ (opens && leb limit (used own.now)) }
{
    if opens {
        return limit <= in_use(own) as usize;
    }
    false
}

// A refusal: of the rest nothing is told.
fn refusal(number: u8) -> AnnounceVerdict
    ensures { result.number ≡ number }
{
    AnnounceVerdict {
        number,
        at: 0,
        stands: false,
        opens: nothing(),
    }
}

// 6, 7 or 8, for a fine route and a table that serves its list and uses as many chunks as that needs. The limits are how many
// it may use. A prefix that stands meets none of them, and opens nothing.
pub fn judge_room(
    t: Table,
    list: &[u8],
    first: &[u16],
    second: &[u16],
    own2: &[u32],
    own3: &[u32],
    r: Route,
    most2: usize,
    most3: usize,
) -> AnnounceVerdict
    requires { RoomReady t list.now first.now second.now own2.now own3.now r most2 most3 }
    ensures { RoomJudged (room_terms t list.now most2 most3) list.now t.count own2.now r result }
{
    let n = t.count as usize;
    let p = record::key_of(r.addr, r.len);
    let k = place(list, n, p);
    if edit::stands_at(list, n, k, p) {
        return AnnounceVerdict {
            number: 0,
            at: k,
            stands: true,
            opens: nothing(),
        };
    }
    if list.len() / 8 <= n {
        return refusal(6);
    }
    let o = to_open(t, list, first, second, own2, own3, r.addr, r.len);
    if wanting(o.second, own2, most2) {
        return refusal(7);
    }
    if wanting(o.third, own3, most3) {
        return refusal(8);
    }
    AnnounceVerdict {
        number: 0,
        at: k,
        stands: false,
        opens: o,
    }
}

// The number with which the announcement is refused, by the first condition that holds; 0 where it is accepted, and what was
// found of it. The words of the list and their chain are then in `ws` and `par`.
pub fn judge_announce(
    t: Table,
    list: &[u8],
    first: &[u16],
    second: &[u16],
    third: &[u16],
    own2: &[u32],
    own3: &[u32],
    long1: &[u16],
    long2: &[u16],
    r: Route,
    ws: &mut [u64],
    par: &mut [u16],
) -> AnnounceVerdict
    requires { Scratch ws.old par.old }
    ensures { AnnounceJudged t (lent list.now first.now second.now third.now
        own2.now own3.now long1.now long2.now) r result
        × ChainLeft result.number list.now t.count ws.new par.new }
{
    let arrays = Arrays {
        list,
        first,
        second,
        third,
        own2,
        own3,
        long1,
        long2,
    };
    if let Err(why) = check_sizes(t, arrays) {
        return refusal(why.number());
    }
    if let Err(fault) = check_route(r) {
        return refusal(fault.number());
    }
    if !sound(
        t, list, first, second, third, own2, own3, long1, long2, ws, par,
    ) {
        return refusal(5);
    }
    judge_room(
        t,
        list,
        first,
        second,
        own2,
        own3,
        r,
        own2.len(),
        own3.len(),
    )
}
