// The test of the counts. A cell from which no chunk hangs counts 0: one plain pass over cells and counts says so, without
// an early end, so that many cells can be done at a time. The others are the cells of the routes longer than the level. In
// the list the routes of one cell stand side by side, and their number is the cell's count.
#![tactic(auto)]

ghost use Rattle.std.specs.Prelude.{◌≡◌, cond, ◌≤◌, ◌<◌, length};
ghost use Rattle.bits.specs.Tab.{Tells};
ghost use Rattle.chain.specs.Words.{routes_of_words};
ghost use Rattle.sail_counts.specs.Counted.{Counts};
ghost use Rattle.sail_counts_test.specs.CountsTest.{idle, Idle, Goes, RunTold, Tallied, Led, Countable, DeepCounts};
ghost use Rattle.sail.specs.Level.{entry, chunks_of, level2};
ghost use Rattle.sail.specs.Sound.{Clear};

use bits::bytes;
use chain::place::run_end;
use sail::geometry::Geometry;
use sail::place::cell_place;

// The count n of a cell that holds v, where it names no chunk, and else 0.
fn idle_count(v: u16, n: u16) -> u16
    ensures { result ≡ cond (idle v) n 0 }
{
    if v == 0 {
        return n;
    }
    if 32768 <= v {
        return n;
    }
    0
}

// Whether each cell that names no chunk counts 0. The largest of these counts says so: the compiler makes many steps of it at
// once, and does not where each step sets a flag by two comparisons.
pub fn idle_ok(cells: &[u16], counts: &[u16]) -> bool
    requires { length counts.now ≡ length cells.now }
    ensures { Tells result (Idle cells.now counts.now) }
{
    let mut most = 0;
    for j in 0..cells.len() {
        most = most.max(idle_count(cells[j], counts[j]));
    }
    most == 0
}

// Whether the word before word k, too, is longer than p and has the bits of cell i.
fn goes_on(ws: &[u64], k: usize, p: u32, i: u64) -> bool
    requires { (k ≤ length ws.now) × (p ≤ 32) }
    ensures { Tells result (Goes ws.now p i k) }
{
    if k == 0 {
        return false;
    }
    let w = ws[k - 1];
    if (w / bytes::THREE % bytes::ONE) as u32 <= p {
        return false;
    }
    (w / bytes::FOUR) >> (32 - p) == i
}

// Whether the cell of level p has its true count that the run of words from word k on has the bits of, where a run begins
// there. `above` names the chunks, of 2^d cells, in which the cells of the level stand.
fn run_ok(ws: &[u64], k: usize, p: u32, d: u32, above: &[u16], counts: &[u16]) -> bool
    requires led { Led ws.now p d above.now counts.now }
    requires k_in_bounds { k < length ws.now }
    ensures { Tells result (RunTold ws.now p d above.now counts.now k) }
{
    let w = ws[k];
    if (w / bytes::THREE % bytes::ONE) as u32 <= p {
        return true;
    }
    let i = (w / bytes::FOUR) >> (32 - p);
    if goes_on(ws, k, p, i) {
        return true;
    }
    let q = cell_place(usize::from(above[(i >> d) as usize]), d, i as usize);
    usize::from(counts[q]) == run_end(ws, k, p, i) - k
}

// Whether the cells of all words that are longer than p have their true counts.
pub fn runs_ok(ws: &[u64], p: u32, d: u32, above: &[u16], counts: &[u16]) -> bool
    requires { Led ws.now p d above.now counts.now }
    ensures { Tells result (Tallied ws.now p d above.now counts.now) }
{
    for k in 0..ws.len() {
        if !run_ok(ws, k, p, d, above, counts) {
            return false;
        }
    }
    true
}

// Whether the counts of first cells are true, and those of second cells from which a chunk hangs, where the levels serve the
// routes of the words. The owners are not read: they say which cells are in use.
pub fn deep_counts_ok(
    ws: &[u64],
    g: Geometry,
    first: &[u16],
    second: &[u16],
    own2: &[u32],
    own3: &[u32],
    long1: &[u16],
    long2: &[u16],
) -> bool
    requires { Countable ws.now g first.now second.now own2.now own3.now long1.now long2.now }
    ensures { Tells result (DeepCounts (routes_of_words ws.now) g own2.now long1.now long2.now) }
{
    let p1 = g.p1;
    let p2 = g.p2;
    if !idle_ok(first, long1) {
        return false;
    }
    let root = [1u16; 1];
    if !runs_ok(ws, p1, p1, &root, long1) {
        return false;
    }
    runs_ok(ws, p2, p2 - p1, first, long2)
}

// Whether the counts of both levels are true, where besides free chunks are zero.
pub fn counts_ok(
    ws: &[u64],
    g: Geometry,
    first: &[u16],
    second: &[u16],
    own2: &[u32],
    own3: &[u32],
    long1: &[u16],
    long2: &[u16],
) -> bool
    requires countable { Countable ws.now g first.now second.now own2.now own3.now long1.now long2.now }
    requires clear { Clear (level2 g (chunks_of own2.now)) (entry second.now) }
    ensures { Tells result (Counts (routes_of_words ws.now) g own2.now long1.now long2.now) }
{
    if !deep_counts_ok(ws, g, first, second, own2, own3, long1, long2) {
        return false;
    }
    idle_ok(second, long2)
}
