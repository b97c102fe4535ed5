// How many cells of a level that are to be leaves, or 0 in a free chunk, hold something else: each block of cells is compared with its
// plan, and free chunks with 0.
#![tactic(auto)]

ghost use Rattle.std.specs.Prelude.{◌+◌, ◌-◌, ◌*◌, ◌^◌, ◌≡◌, length, get_or};
ghost use Rattle.chain.specs.Words.{routes_of_words};
ghost use Rattle.plan.specs.Plan.{plan};
ghost use Rattle.sail.specs.Level.{always, itself, entry, live_in, part_of};
ghost use Rattle.sail_paint.specs.Paint.{stands_for};
ghost use Rattle.repair_leaves.specs.Leaves.{off_plan, off_zero, off_at, CountIs, DiffBlockReady, DiffFirstReady, DiffChunkReady, DiffPoolReady};

use chain::place::shifted;
use plan::under::plan_under;
use sail_paint::place::{owner_at, stands_for};

// How many cells of a part are planned as leaves and hold something else. No early end, and the first test reads both, so that it
// can be done many cells at a time.
fn off_plan(part: &[u16], want: &[u16]) -> usize
    requires { length part.now ≡ length want.now }
    ensures { CountIs result (λ j. off_plan (get_or want.now j 0) (get_or part.now j 0)) (length part.now) }
{
    let mut m = 0;
    for j in 0..part.len() {
        let x = part[j];
        let w = want[j];
        if x != w {
            if w != 0 {
                m += 1;
            }
        }
    }
    m
}

// How many cells of a part are not zero.
// Stays: beside off_plan. One function for both would be given the test of a cell, as `off(part, |j| part[j] != 0)`, and the plan's test
// needs the plan as well: the two loops are as short.
fn off_zero(part: &[u16]) -> usize
    ensures { CountIs result (λ j. off_zero (get_or part.now j 0)) (length part.now) }
{
    let mut m = 0;
    for x in part {
        if *x != 0 {
            m += 1;
        }
    }
    m
}

// The cells from place a up to e beside the plan of the cells of level p from base on, which lie in cell i of level l; `want`
// is room for the plan.
fn off_block(
    ws: &[u64],
    par: &[u16],
    l: u32,
    i: u64,
    p: u32,
    base: usize,
    cells: &[u16],
    a: usize,
    e: usize,
    want: &mut [u16],
) -> usize
    requires { DiffBlockReady ws.now par.now l i p base cells.now a e want.old }
    ensures { CountIs result (λ j. off_plan (plan (routes_of_words ws.now) p (base + j)) (get_or cells.now (a + j) 0)) (e - a) }
{
    let n = e - a;
    plan_under(ws, par, l, i, p, base, &mut want[..n]);
    off_plan(&cells[a..e], &want[..n])
}

// The first cells beside their plan, in blocks of 1,024; p is their level.
pub fn off_first(ws: &[u64], par: &[u16], p: u32, first: &[u16], want: &mut [u16]) -> usize
    requires { DiffFirstReady ws.now par.now p first.now want.old }
    ensures { CountIs result (off_at (routes_of_words ws.now) p always itself (entry first.now)) (length first.now) }
{
    let mut m = 0;
    for b in 0..first.len() / 1024 {
        let a = b * 1024;
        m += off_block(ws, par, p - 10, b as u64, p, a, first, a, a + 1024, want);
    }
    m
}

// Chunk c of a pool, whose owner is o: beside its plan where it is in use, and else beside 0. Its cells are of level p. It hangs
// from a cell of level l, whose places lie in chunks of 2^e with the owners `up`.
fn off_chunk(
    ws: &[u64],
    par: &[u16],
    l: u32,
    p: u32,
    up: &[u32],
    e: u32,
    o: usize,
    cells: &[u16],
    c: usize,
    want: &mut [u16],
) -> usize
    requires { DiffChunkReady ws.now par.now l p up.now e o cells.now c want.old }
    ensures { CountIs result (λ j. off_at (routes_of_words ws.now) p (live_in (λ _. o) (p - l)) (part_of (λ _. o) (p - l)
        (stands_for e up.now)) (entry cells.now) (c * 2 ^ (p - l) + j)) (2 ^ (p - l)) }
{
    let d = p - l;
    let a = shifted(c as u64, 12, d) as usize;
    let end = a + shifted(1, 1, d) as usize;
    if o == 0 {
        return off_zero(&cells[a..end]);
    }
    let i = stands_for(up, e, o - 1);
    let base = shifted(i, l, d) as usize;
    off_block(ws, par, l, i, p, base, cells, a, end, want)
}

// The same for each chunk of a pool.
pub fn off_pool(
    ws: &[u64],
    par: &[u16],
    l: u32,
    p: u32,
    up: &[u32],
    e: u32,
    own: &[u32],
    cells: &[u16],
    want: &mut [u16],
) -> usize
    requires { DiffPoolReady ws.now par.now l p up.now e own.now cells.now want.old }
    ensures { CountIs result (off_at (routes_of_words ws.now) p (live_in (entry own.now) (p - l)) (part_of (entry
        own.now) (p - l) (stands_for e up.now)) (entry cells.now)) (length cells.now) }
{
    let mut m = 0;
    for c in 0..own.len() {
        let o = owner_at(own, c);
        m += off_chunk(ws, par, l, p, up, e, o, cells, c, want);
    }
    m
}
