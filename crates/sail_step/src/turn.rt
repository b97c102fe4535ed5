// One turn: the first cell of an address is read, the second of the one eight before it, and the third of the one sixteen before it.
ghost use Rattle.std.specs.Prelude.{◌≡◌, ◌+◌, ◌<◌, length};
ghost use Rattle.sail_step.specs.Words.{step1, step2, step3, turned, LevelsReady};

use crate::word::{read_first, read_second, read_third};

// One turn: three addresses go one level on.
pub fn turn(
    p1: u32,
    p2: u32,
    first: &[u16],
    second: &[u16],
    chunks2: usize,
    third: &[u16],
    chunks3: usize,
    addrs: &[u32],
    out: &mut [u32],
    j: usize,
)
    requires { LevelsReady p1 p2 first.now second.now chunks2 third.now chunks3 × (j + 16 < length addrs.now) × (length out.old
        ≡ length addrs.now) }
    ensures { out.new ≡ turned (step1 p1 first.now addrs.now) (step2 p1 p2
        second.now chunks2 addrs.now) (step3 p2 third.now chunks3 addrs.now) j
        out.old }
{
    read_first(p1, first, addrs, out, j + 16);
    read_second(p1, p2, second, chunks2, addrs, out, j + 8);
    read_third(p2, third, chunks3, addrs, out, j);
}
