// A part of lent cells beside its plan. The plan has 0 for each cell that names a chunk. Such cells are settled route by
// route: their plan becomes what they hold, and each must name a chunk that names it back. One plain comparison of the
// whole part then does the rest.
ghost use Rattle.std.specs.Prelude.{◌+◌, length};
ghost use Rattle.bits.specs.Tab.{Tells};
ghost use Rattle.standing.specs.Cells.{within, long};
ghost use Rattle.chain.specs.Words.{route_of_word, routes_of_words};
ghost use Rattle.plan.specs.Plan.{planned_from};
ghost use Rattle.plan_test.specs.Part.{NamesBack, Settled, Matches, Beside, Judges};

use bits::bytes;
use buffers_test::same::same;
use plan::paint::plan_words;

// Whether v is the number, from 1, of a chunk whose owner number is o.
pub fn names(v: u16, own: &[u32], o: usize) -> bool
    ensures { Tells result (NamesBack v own.now o) }
{
    let c = usize::from(v);
    1 <= c && c <= own.len() && own[c - 1] as usize == o
}

// The cell that the route of a word lies within, where it is one of the part: its plan becomes what it holds. Says
// whether the cell names a chunk that names it back; cell j of the part has the owner number o + j.
pub fn settle_one(
    w: u64,
    p: u32,
    base: usize,
    part: &[u16],
    o: usize,
    want: &mut [u16],
    own: &[u32],
) -> bool
    requires { Beside p o part.now want.old }
    ensures { Settled (λ j. within p (base + j) (route_of_word w)) part.now own.now o want.old want.new result }
{
    let n = want.len();
    let len = (w / bytes::THREE % bytes::ONE) as u32;
    if len <= p {
        return true;
    }
    let cell = ((w / bytes::FOUR) >> (32 - p)) as usize;
    if cell < base {
        return true;
    }
    let j = cell - base;
    if n <= j {
        return true;
    }
    let v = part[j];
    want[j] = v;
    names(v, own, o + j)
}

// The same for each word of a run, in any order.
pub fn settle(
    run: &[u64],
    p: u32,
    base: usize,
    part: &[u16],
    o: usize,
    want: &mut [u16],
    own: &[u32],
) -> bool
    requires { Beside p o part.now want.old }
    ensures { Settled (λ j. long (routes_of_words run.now) p (base + j)) part.now own.now o
        want.old want.new result }
{
    let mut ok = true;
    for w in run {
        ok &= settle_one(*w, p, base, part, o, want, own);
    }
    ok
}

// Whether a part is as the routes of a run ask for the cells of level p from base on, where the hop h is inherited;
// `want` is room for the plan.
pub fn as_planned(
    run: &[u64],
    h: u16,
    p: u32,
    base: usize,
    part: &[u16],
    o: usize,
    want: &mut [u16],
    own: &[u32],
) -> bool
    requires { Judges run.now h p o part.now want.old }
    ensures { Tells result (Matches part.now o (planned_from h (routes_of_words run.now) p base (length
        want.old)) own.now) }
{
    plan_words(run, h, p, base, want);
    if !settle(run, p, base, part, o, want, own) {
        return false;
    }
    same(part, want)
}
