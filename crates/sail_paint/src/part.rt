// A part of the cells of a level painted again, and the first cells that meet a prefix: these are one range.
ghost use Rattle.std.specs.Prelude.{◌≡◌, ◌+◌, ◌-◌, ◌^◌, ◌≤◌, ◌<◌};
ghost use Rattle.chain.specs.Words.{routes_of_words};
ghost use Rattle.buffers.specs.Fill.{between};
ghost use Rattle.sail.specs.Level.{itself};
ghost use Rattle.sail_paint.specs.Stale.{meets};
ghost use Rattle.sail_paint.specs.Paint.{overpainted, Part, FirstPaintReady, BlockEnd};

use plan::under::plan_under;

// The cells from place a up to e as the routes ask for the cells of level p from base on, which lie in cell i of level l.
pub fn paint_part(
    ws: &[u64],
    par: &[u16],
    l: u32,
    i: u64,
    p: u32,
    base: usize,
    cells: &mut [u16],
    a: usize,
    e: usize,
)
    requires { Part ws.now par.now l i p base cells.old a e }
    ensures { cells.new ≡ overpainted (routes_of_words ws.now) p (between a e) (λ q. base + (q - a)) cells.old }
{
    plan_under(ws, par, l, i, p, base, &mut cells[a..e]);
}

// The end of the block of 1,024 cells that lo lies in, at most e.
fn block_end(lo: usize, e: usize) -> usize
    requires { lo < e }
    ensures { BlockEnd lo e result }
{
    lo + (1024 - lo % 1024).min(e - lo)
}

// Where the cells of level p that meet a prefix of len bits end; they begin with the cell `from`.
fn range_end(p: u32, len: u32, from: usize) -> usize
    requires { (p ≤ 32) × (from < 2 ^ 32) }
    ensures { result ≡ from + 2 ^ (p - len) }
{
    if p <= len {
        return from + 1;
    }
    from + (1usize << (p - len))
}

// The first cells that meet the prefix of len bits of addr as the routes ask; p is their level. They are painted in blocks
// that lie in one cell of level p - 10, so that each block costs the routes under that cell alone.
pub fn paint_first(ws: &[u64], par: &[u16], p: u32, addr: u32, len: u32, first: &mut [u16])
    requires { FirstPaintReady ws.now par.now p addr len first.old }
    ensures { first.new ≡ overpainted (routes_of_words ws.now) p (meets addr len p) itself first.old }
{
    let from = bits::slot(p, addr) as usize;
    let end = range_end(p, len, from);
    // Stays: the first block and the last may be shorter than 1,024 cells, so no range has these steps.
    let mut lo = from;
    while lo < end {
        let at = lo;
        lo = block_end(at, end);
        paint_part(ws, par, p - 10, (at / 1024) as u64, p, at, first, at, lo);
    }
}
