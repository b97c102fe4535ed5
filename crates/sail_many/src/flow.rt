// All levels at once: while an address enters, the one eight before it is at its second cell, and the one sixteen before it at its
// last. What a cell leads to is asked eight turns after it was fetched, so that a test seldom waits for memory.
ghost use Rattle.std.specs.Prelude.{◌≡◌, ◌+◌, ◌*◌, ◌≤◌, ◌<◌, length};
ghost use Rattle.bits.specs.Tab.{tabulate};
ghost use Rattle.sail_step.specs.Words.{LevelsReady};
ghost use Rattle.sail_many.specs.Flows.{answer_at, Flows, Halves};

use crate::pass::{read_firsts, read_seconds, read_thirds};
use sail::geometry::Geometry;
use sail_step::turn::turn;

// Two turns, so that a loop has half the tests of its own. The standard geometry has its own way: the compiler then knows the shifts.
fn round(
    p1: u32,
    p2: u32,
    first: &[u16],
    second: &[u16],
    chunks2: usize,
    third: &[u16],
    chunks3: usize,
    addrs: &[u32],
    out: &mut [u32],
    j: usize,
)
    requires { LevelsReady p1 p2 first.now second.now chunks2 third.now chunks3 × (j + 17 < length addrs.now) × Flows p1 p2
        first.now second.now chunks2 third.now chunks3 addrs.now j out.old }
    ensures { Flows p1 p2 first.now second.now chunks2 third.now chunks3 addrs.now
        (j + 2) out.new }
{
    let standard = Geometry::STANDARD;
    if p1 == standard.p1 {
        if p2 == standard.p2 {
            turn(
                standard.p1,
                standard.p2,
                first,
                second,
                chunks2,
                third,
                chunks3,
                addrs,
                out,
                j,
            );
            turn(
                standard.p1,
                standard.p2,
                first,
                second,
                chunks2,
                third,
                chunks3,
                addrs,
                out,
                j + 1,
            );
            return;
        }
    }
    turn(
        p1, p2, first, second, chunks2, third, chunks3, addrs, out, j,
    );
    turn(
        p1,
        p2,
        first,
        second,
        chunks2,
        third,
        chunks3,
        addrs,
        out,
        j + 1,
    );
}

// Twice so many turns.
fn stream(
    p1: u32,
    p2: u32,
    first: &[u16],
    second: &[u16],
    chunks2: usize,
    third: &[u16],
    chunks3: usize,
    addrs: &[u32],
    out: &mut [u32],
    half: usize,
)
    requires { LevelsReady p1 p2 first.now second.now chunks2 third.now chunks3 × (2 * half + 16 ≤ length addrs.now) × Flows p1 p2
        first.now second.now chunks2 third.now chunks3 addrs.now 0 out.old }
    ensures { Flows p1 p2 first.now second.now chunks2 third.now chunks3 addrs.now
        (2 * half) out.new }
{
    for i in 0..half {
        round(
            p1,
            p2,
            first,
            second,
            chunks2,
            third,
            chunks3,
            addrs,
            out,
            2 * i,
        );
    }
}

// The answers level by level, for few addresses.
fn few(
    p1: u32,
    p2: u32,
    first: &[u16],
    second: &[u16],
    chunks2: usize,
    third: &[u16],
    chunks3: usize,
    addrs: &[u32],
    out: &mut [u32],
)
    requires { LevelsReady p1 p2 first.now second.now chunks2 third.now chunks3 × (length out.old ≡ length addrs.now) }
    ensures { out.new ≡ tabulate (length addrs.now) (answer_at p1 p2 first.now
        second.now chunks2 third.now chunks3 addrs.now) }
{
    let n = addrs.len();
    read_firsts(p1, first, addrs, out, 0, n);
    read_seconds(p1, p2, second, chunks2, addrs, out, 0, n);
    read_thirds(p2, third, chunks3, addrs, out, 0, n);
}

// Before the first turn: sixteen addresses enter, and eight of them go down.
fn begin(
    p1: u32,
    p2: u32,
    first: &[u16],
    second: &[u16],
    chunks2: usize,
    third: &[u16],
    chunks3: usize,
    addrs: &[u32],
    out: &mut [u32],
)
    requires { LevelsReady p1 p2 first.now second.now chunks2 third.now chunks3 × (length out.old
        ≡ length addrs.now) × (16 ≤ length addrs.now) }
    ensures { Flows p1 p2 first.now second.now chunks2 third.now chunks3 addrs.now 0 out.new }
{
    read_firsts(p1, first, addrs, out, 0, 16);
    read_seconds(p1, p2, second, chunks2, addrs, out, 0, 8);
}

// After the last turn: those that are left are brought to the end.
fn finish(
    p1: u32,
    p2: u32,
    first: &[u16],
    second: &[u16],
    chunks2: usize,
    third: &[u16],
    chunks3: usize,
    addrs: &[u32],
    out: &mut [u32],
    m: usize,
)
    requires { LevelsReady p1 p2 first.now second.now chunks2 third.now chunks3 × (m + 16 ≤ length addrs.now) × Flows p1 p2
        first.now second.now chunks2 third.now chunks3 addrs.now m out.old }
    ensures { out.new ≡ tabulate (length addrs.now) (answer_at p1 p2 first.now
        second.now chunks2 third.now chunks3 addrs.now) }
{
    let n = addrs.len();
    read_firsts(p1, first, addrs, out, m + 16, n);
    read_seconds(p1, p2, second, chunks2, addrs, out, m + 8, n);
    read_thirds(p2, third, chunks3, addrs, out, m, n);
}

// The answers by turns.
fn flow(
    p1: u32,
    p2: u32,
    first: &[u16],
    second: &[u16],
    chunks2: usize,
    third: &[u16],
    chunks3: usize,
    addrs: &[u32],
    out: &mut [u32],
)
    requires { LevelsReady p1 p2 first.now second.now chunks2 third.now chunks3 × (length out.old
        ≡ length addrs.now) × (16 ≤ length addrs.now) }
    ensures { out.new ≡ tabulate (length addrs.now) (answer_at p1 p2 first.now
        second.now chunks2 third.now chunks3 addrs.now) }
{
    let half = (addrs.len() - 16) / 2;
    begin(p1, p2, first, second, chunks2, third, chunks3, addrs, out);
    stream(
        p1, p2, first, second, chunks2, third, chunks3, addrs, out, half,
    );
    finish(
        p1,
        p2,
        first,
        second,
        chunks2,
        third,
        chunks3,
        addrs,
        out,
        2 * half,
    );
}

// The answer for each address, as one lookup packs it.
pub fn many(
    p1: u32,
    p2: u32,
    first: &[u16],
    second: &[u16],
    chunks2: usize,
    third: &[u16],
    chunks3: usize,
    addrs: &[u32],
    out: &mut [u32],
)
    requires { LevelsReady p1 p2 first.now second.now chunks2 third.now chunks3 × (length out.old ≡ length addrs.now) }
    ensures answers { out.new ≡ tabulate (length addrs.now) (answer_at p1 p2 first.now
        second.now chunks2 third.now chunks3 addrs.now) }
    ensures cells { Halves first.now × Halves second.now × Halves third.now }
{
    if addrs.len() < 16 {
        few(p1, p2, first, second, chunks2, third, chunks3, addrs, out);
        return;
    }
    flow(p1, p2, first, second, chunks2, third, chunks3, addrs, out);
}
