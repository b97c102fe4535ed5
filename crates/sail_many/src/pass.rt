// One level for a range of addresses.
// Stays: three functions, one for each level. One that takes the step would be called as
// `sweep(out, from, to, |out, i| read_first(p1, first, addrs, out, i))`, which is as long as the loop itself.
ghost use Rattle.std.specs.Prelude.{◌-◌, ◌≤◌, length};
ghost use Rattle.sail_step.specs.Words.{step1, step2, step3, Firsts, Below, Whole};
ghost use Rattle.sail_many.specs.Flows.{AddrRange, Swept};

use sail_step::word::{read_first, read_second, read_third};

pub fn read_firsts(p1: u32, first: &[u16], addrs: &[u32], out: &mut [u32], from: usize, to: usize)
    requires { Firsts p1 (length first.now) × AddrRange from to addrs.now out.old }
    ensures { Swept (λ k _. step1 p1 first.now addrs.now k) from to out.old out.new }
{
    for i in from..to {
        read_first(p1, first, addrs, out, i);
    }
}

pub fn read_seconds(
    p1: u32,
    p2: u32,
    second: &[u16],
    chunks: usize,
    addrs: &[u32],
    out: &mut [u32],
    from: usize,
    to: usize,
)
    requires { Whole (length second.now) chunks (p2 - p1) × Below p1 p2 × AddrRange from to addrs.now out.old }
    ensures { Swept (step2 p1 p2 second.now chunks addrs.now) from to out.old out.new }
{
    for i in from..to {
        read_second(p1, p2, second, chunks, addrs, out, i);
    }
}

pub fn read_thirds(
    p2: u32,
    third: &[u16],
    chunks: usize,
    addrs: &[u32],
    out: &mut [u32],
    from: usize,
    to: usize,
)
    requires { Whole (length third.now) chunks (32 - p2) × (p2 ≤ 32) × AddrRange from to addrs.now out.old }
    ensures { Swept (step3 p2 third.now chunks addrs.now) from to out.old out.new }
{
    for i in from..to {
        read_third(p2, third, chunks, addrs, out, i);
    }
}
