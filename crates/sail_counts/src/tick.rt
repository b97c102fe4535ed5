// One route more or less in the counts of a table, whose first cells lead to the place that serves the route.
ghost use Rattle.std.specs.Prelude.{◌≡◌};
ghost use Rattle.routes.specs.Record.{routes_of};
ghost use Rattle.sail_counts.specs.Tick.{step, Steps, Ticks, Ticked, Tickable, CountsMoved, Uncounted, CountedAll};

use records::record::read_record;
use sail::geometry::Geometry;
use sail::place::second_place;

// What is left, at the route's place, of the routes longer than the first level and than the second; 1 where the route is
// no longer. So 0 says that the chunk that hangs there is needed no more.
#[derive(Clone, Copy)]
pub struct Left {
    pub first: u16,
    pub second: u16,
}

// One more, or one less.
// Stays: a bool. An enum of two would be matched here alone, and the definitions of specs/ (`step`, `Ticks`, `CountsMoved`) and the theorems
// on announcements and withdrawals name `true` and `false`.
fn stepped(n: u16, up: bool) -> u16
    requires { Steps up n }
    ensures { result ≡ step up n }
{
    if up {
        return n + 1;
    }
    n - 1
}

// A step at place q of a level's counts, where the route is longer than the level. Answers what is left there.
fn tick_at(counts: &mut [u16], longer: bool, q: usize, up: bool) -> u16
    requires { Ticks longer up q counts.old }
    ensures { Ticked longer up q counts.old counts.new result }
{
    if longer {
        let n = stepped(counts[q], up);
        counts[q] = n;
        return n;
    }
    1
}

// A step at both levels for the prefix of len bits of addr.
pub fn tick(
    g: Geometry,
    addr: u32,
    len: u8,
    first: &[u16],
    long1: &mut [u16],
    long2: &mut [u16],
    up: bool,
) -> Left
    requires { Tickable g addr len first.now long1.old long2.old up }
    ensures { CountsMoved g addr len first.now long1.old long2.old up long1.new long2.new result }
{
    let p1 = g.p1;
    let p2 = g.p2;
    let l = u32::from(len);
    let i = bits::slot(p1, addr) as usize;
    let q = second_place(g, usize::from(first[i]), addr);
    let one = tick_at(long1, p1 < l, i, up);
    let two = tick_at(long2, p2 < l, q, up);
    Left {
        first: one,
        second: two,
    }
}

// The routes of the first n records come one by one, where the counts of first cells and of live second cells are 0; the other
// counts are not read, and stay. The first cells lead to the places of all routes. The owners are not read: they say which cells
// are live.
pub fn count_all(
    g: Geometry,
    list: &[u8],
    n: usize,
    first: &[u16],
    own2: &[u32],
    long1: &mut [u16],
    long2: &mut [u16],
)
    requires { Uncounted g list.now n first.now own2.now long1.old long2.old }
    ensures { CountedAll (routes_of list.now n) g own2.now long2.old long1.new long2.new }
{
    for k in 0..n {
        let r = read_record(list, k);
        tick(g, r.addr, r.len, first, long1, long2, true);
    }
}
