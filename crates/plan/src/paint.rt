// A block of cells of one level, planned by painting the routes in list order over the hop that it inherits. Each route
// costs the cells that it covers in the block, and no other cell is looked at for it.
ghost use Rattle.std.specs.Prelude.{◌≡◌, cond, ◌+◌, ◌-◌, ◌^◌, ◌≤◌, min, ltb, length};
ghost use Rattle.chain.specs.Words.{route_of_word, routes_of_words};
ghost use Rattle.plan.specs.Plan.{planned_from};
ghost use Rattle.plan.specs.Paint.{painted, Paints, Plans};

use bits::bytes;
use buffers::fill::fill_range;

// How far x lies past base, at most n.
fn clip(x: usize, base: usize, n: usize) -> usize
    ensures { result ≡ min (x - base) n }
{
    x.saturating_sub(base).min(n)
}

// How many cells of level p a route of this length touches: those that it covers, or the one that it lies within.
fn span(p: u32, len: u32) -> usize
    requires { p ≤ 32 }
    ensures { (result ≡ 2 ^ (p - len)) × (result ≤ 2 ^ 32) }
{
    if p <= len {
        return 1;
    }
    1usize << (p - len)
}

// What a route leaves in these cells: 0 where it is longer than the level, since the cell then names a chunk, and
// otherwise a leaf with its hop.
fn ink(p: u32, len: u32, hop: u16) -> u16
    requires { hop ≤ 32767 }
    ensures { result ≡ cond (ltb p len) 0 (32768 + hop) }
{
    if p < len {
        return 0;
    }
    32768 + hop
}

// Paints the route of a word over the block of cells of level p that starts at base.
pub fn paint_one(w: u64, p: u32, base: usize, out: &mut [u16])
    requires { Paints w p }
    ensures { out.new ≡ painted out.old p base (route_of_word w) }
{
    let n = out.len();
    let len = (w / bytes::THREE % bytes::ONE) as u32;
    let cell = ((w / bytes::FOUR) >> (32 - p)) as usize;
    let end = cell + span(p, len);
    let v = ink(p, len, (w % bytes::TWO) as u16);
    fill_range(out, clip(cell, base, n), clip(end, base, n), v);
}

// The cells of level p from base on, as many as `out` has: the hop h everywhere, and the routes over it in list order.
pub fn plan_words(ws: &[u64], h: u16, p: u32, base: usize, out: &mut [u16])
    requires { Plans ws.now h p }
    ensures { out.new ≡ planned_from h (routes_of_words ws.now) p base (length out.old) }
{
    out.fill(32768 + h);
    for k in 0..ws.len() {
        paint_one(ws[k], p, base, out);
    }
}
