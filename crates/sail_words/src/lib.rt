// Lookups that answer with a word: of one address, and of many with one check of geometry and sizes. The walk answers with the
// word itself, so nothing is packed after it.
#![tactic(auto)]

ghost use Rattle.std.specs.Prelude.{◌≡◌};
ghost use Rattle.sail.specs.Arrays.{lent_by};
ghost use Rattle.sail.specs.Walk.{lookup_said};
ghost use Rattle.sail.specs.Word.{Word};
ghost use Rattle.sail_words.specs.Lookups.{words_card, many_card};

use sail::arrays::Arrays;
use sail::geometry::Geometry;
use sail::table::Table;
use sail_lookup::walk;
use sail_many::flow::many;
use sail_sizes::check_sizes;

// One lookup. It is put into its caller: to hand on the arrays once more takes longer than the walk.
#[inline(always)]
pub fn look(t: Table, a: Arrays, addr: u32) -> u64
    ensures { Word result (lookup_said t (lent_by a.entry) addr) }
{
    if let Err(why) = check_sizes(t, a) {
        return u64::from(why.number());
    }
    u64::from(walk(t.geometry, a, addr))
}

// The same, the quick way at the standard geometry, whose shifts the compiler then knows.
#[inline(always)]
pub fn look_quick(t: Table, a: Arrays, addr: u32) -> u64
    ensures { Word result (lookup_said t (lent_by a.entry) addr) }
{
    if t.geometry == Geometry::STANDARD {
        let standard = Table {
            geometry: Geometry::STANDARD,
            count: t.count,
        };
        return look(standard, a, addr);
    }
    look(t, a, addr)
}

// Many lookups with one check of geometry and sizes.
pub fn look_each(t: Table, a: Arrays, addrs: &[u32], out: &mut [u32]) -> u64
    ensures { words_card result out.new ≡ many_card t (lent_by a.entry) addrs.now out.old }
{
    if let Err(why) = check_sizes(t, a) {
        return u64::from(why.number());
    }
    if out.len() != addrs.len() {
        return 2;
    }
    many(
        t.geometry.p1,
        t.geometry.p2,
        a.first,
        a.second,
        a.own2.len(),
        a.third,
        a.own3.len(),
        addrs,
        out,
    );
    0
}
