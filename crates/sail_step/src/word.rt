// One address, one level: the word that stands for it in `out` is that of the cell last read for it.
ghost use Rattle.std.specs.Prelude.{◌≡◌, ◌+◌, ◌-◌, ◌<◌, ◌≤◌, length, slice_index};
ghost use Rattle.bits.specs.Slot.{slot};
ghost use Rattle.sail.specs.Walk.{cell_place};
ghost use Rattle.sail_step.specs.Words.{cell_word, word3, step1, step2, step3, put, Firsts, Below, Whole, Points, Spot};

use sail::place::cell_place;

// The word of a cell that was read as the n-th. A leaf's is the answer. Any other's has its top bit set.
fn word(v: u16, n: u32) -> u32
    requires { n ≤ 3 }
    ensures { result ≡ cell_word n v }
{
    (u32::from(v) * 65536).wrapping_add(2147483648 + n * 256)
}

// The chunk, counted from 0, that a word leads to. An answer's is beyond all chunks, since it wraps.
fn chunk(w: u32) -> usize
    ensures { Points result w }
{
    ((w / 65536) as usize).wrapping_sub(32769)
}

// The cell in chunk c, counted from 0, that serves cell i of its level.
fn fetch(pool: &[u16], chunks: usize, c: usize, k: u32, i: u32) -> u16
    requires { Whole (length pool.now) chunks k × (c < chunks) }
    ensures { result ≡ slice_index pool.now (cell_place k (c + 1) i) }
{
    let at = cell_place(c + 1, k, i as usize);
    pool[at]
}

// The first cell of an address.
fn head(p1: u32, first: &[u16], addr: u32) -> u16
    requires { Firsts p1 (length first.now) }
    ensures { result ≡ slice_index first.now (slot p1 addr) }
{
    first[(addr >> (32 - p1)) as usize]
}

// The first cell is read.
pub fn read_first(p1: u32, first: &[u16], addrs: &[u32], out: &mut [u32], j: usize)
    requires { Firsts p1 (length first.now) × Spot j addrs.now out.old }
    ensures { out.new ≡ put (λ k _. step1 p1 first.now addrs.now k) j out.old }
{
    out[j] = word(head(p1, first, addrs[j]), 1);
}

// The second cell is read where the first leads to one. Nothing is written where it does not.
pub fn read_second(
    p1: u32,
    p2: u32,
    second: &[u16],
    chunks: usize,
    addrs: &[u32],
    out: &mut [u32],
    j: usize,
)
    requires { Whole (length second.now) chunks (p2 - p1) × Below p1 p2 × Spot j addrs.now out.old }
    ensures { out.new ≡ put (step2 p1 p2 second.now chunks addrs.now) j out.old }
{
    let c = chunk(out[j]);
    if c < chunks {
        let addr = addrs[j];
        out[j] = word(fetch(second, chunks, c, p2 - p1, addr >> (32 - p2)), 2);
    }
}

// The answer for a word that is none yet.
fn last(p2: u32, third: &[u16], chunks: usize, addr: u32, w: u32) -> u32
    requires { Whole (length third.now) chunks (32 - p2) × (p2 ≤ 32) × (2147483648 ≤ w) }
    ensures { result ≡ word3 p2 third.now chunks addr w }
{
    if w / 256 % 256 != 2 {
        return 5;
    }
    let c = chunk(w);
    if c < chunks {
        let v = fetch(third, chunks, c, 32 - p2, addr);
        if 32768 <= v {
            return word(v, 3);
        }
    }
    5
}

// The third cell is read where the second leads to one, and what leads nowhere is refused. An answer stays.
pub fn read_third(p2: u32, third: &[u16], chunks: usize, addrs: &[u32], out: &mut [u32], j: usize)
    requires { Whole (length third.now) chunks (32 - p2) × (p2 ≤ 32) × Spot j addrs.now out.old }
    ensures { out.new ≡ put (step3 p2 third.now chunks addrs.now) j out.old }
{
    let w = out[j];
    if 2147483648 <= w {
        out[j] = last(p2, third, chunks, addrs[j], w);
    }
}
