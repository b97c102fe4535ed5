// How many chunks the routes of a list need, counted in one pass; and whether what is lent is enough for them.
#![tactic(auto)]

ghost use Rattle.std.specs.Prelude.{◌≡◌, ◌≤◌};
ghost use Rattle.refusals.specs.Numbers.{fault_of};
ghost use Rattle.standing.specs.Cells.{need};
ghost use Rattle.routes.specs.Record.{routes_of};
ghost use Rattle.sail_theory.specs.Calls.{load_fault};
ghost use Rattle.sail_need.specs.Need.{NeedReady};
ghost use Rattle.sail_need.specs.Weigh.{terms, Weighs};

use bits::slot;
use records::record::read_record;
use refusals::Refusal;
use sail::geometry::Geometry;

// How many different cells of level p the first n records have that are longer than p. In an ascending list the records
// of one cell stand together, but for records that are not longer than p: so a cell is new where it is not that of the
// last record longer than p, which `last` is.
pub fn count_need(list: &[u8], n: usize, p: u32) -> usize
    requires { NeedReady list.now n p }
    ensures { (result ≡ need (routes_of list.now n) p) × (result ≤ n) }
{
    let mut m = 0;
    let mut last = None;
    for k in 0..n {
        let r = read_record(list, k);
        if p < u32::from(r.len) {
            let cell = slot(p, r.addr);
            if last != Some(cell) {
                last = Some(cell);
                m += 1;
            }
        }
    }
    m
}

// Whether n good records find room: 6, 7 or 8 where they do not.
pub fn weigh(
    g: Geometry,
    input: &[u8],
    n: usize,
    room: usize,
    most2: usize,
    most3: usize,
) -> Result<(), Refusal>
    requires { Weighs g input.now n }
    ensures { fault_of result ≡ load_fault (terms g room most2 most3) (routes_of input.now n) }
{
    if room < n {
        return Err(Refusal::Room);
    }
    if most2 < count_need(input, n, g.p1) {
        return Err(Refusal::SecondChunks);
    }
    if most3 < count_need(input, n, g.p2) {
        return Err(Refusal::ThirdChunks);
    }
    Ok(())
}
