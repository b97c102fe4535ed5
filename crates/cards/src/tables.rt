// The calls on SAIL tables. The state is three numbers: both levels of the geometry and the route count.
ghost use Rattle.std.specs.Prelude.{◌≡◌};
ghost use Rattle.sail.specs.Lent.{lent};
ghost use Rattle.sail_theory.specs.Calls.{route, made, loaded, announced, withdrawn, reported};
ghost use Rattle.packing.specs.Pack.{pack_report};
ghost use Rattle.cards.specs.Cards.{card, card_of};
ghost use Rattle.sail_words.specs.Lookups.{table_of};

use bits::narrow::{narrow8, narrow16};
use sail::arrays::Arrays;
use sail::geometry::Geometry;
use sail::table::Table;

// A fresh table of this geometry.
#[unsafe(no_mangle)]
pub extern "C" fn gh_make(
    p1: u32,
    p2: u32,
    list: &mut [u8],
    first: &mut [u16],
    second: &mut [u16],
    third: &mut [u16],
    own2: &mut [u32],
    own3: &mut [u32],
    long1: &mut [u16],
    long2: &mut [u16],
) -> u64
    ensures { card result (lent list.new first.new second.new third.new own2.new
        own3.new long1.new long2.new) ≡ card_of (made (table_of p1 p2 0)
        (lent list.old first.old second.old third.old own2.old own3.old
        long1.old long2.old)) }
{
    let t = Table {
        geometry: Geometry { p1, p2 },
        count: 0,
    };
    let made = sail_make::make(t, list, first, second, third, own2, own3, long1, long2);
    packing_tables::made(made, made.unwrap_or(t).count)
}

// A table of the input's routes; nothing of the old one is read.
#[unsafe(no_mangle)]
pub extern "C" fn gh_load(
    p1: u32,
    p2: u32,
    input: &[u8],
    list: &mut [u8],
    first: &mut [u16],
    second: &mut [u16],
    third: &mut [u16],
    own2: &mut [u32],
    own3: &mut [u32],
    long1: &mut [u16],
    long2: &mut [u16],
) -> u64
    ensures { card result (lent list.new first.new second.new third.new own2.new
        own3.new long1.new long2.new) ≡ card_of (loaded (table_of p1 p2 0)
        (lent list.old first.old second.old third.old own2.old own3.old
        long1.old long2.old) input.now) }
{
    let t = Table {
        geometry: Geometry { p1, p2 },
        count: 0,
    };
    let loaded = sail_load::load::load(
        t, input, list, first, second, third, own2, own3, long1, long2,
    );
    packing_tables::loaded(loaded, loaded.unwrap_or(t).count)
}

// A route is added to the table, or replaces the hop and the mark of its prefix.
#[unsafe(no_mangle)]
pub extern "C" fn gh_announce(
    p1: u32,
    p2: u32,
    count: u32,
    list: &mut [u8],
    first: &mut [u16],
    second: &mut [u16],
    third: &mut [u16],
    own2: &mut [u32],
    own3: &mut [u32],
    long1: &mut [u16],
    long2: &mut [u16],
    addr: u32,
    len: u32,
    hop: u32,
    mark: u32,
) -> u64
    ensures { card result (lent list.new first.new second.new third.new own2.new
        own3.new long1.new long2.new) ≡ card_of (announced (table_of p1 p2 count)
        (lent list.old first.old second.old third.old own2.old own3.old
        long1.old long2.old) (route addr len hop mark)) }
{
    let geometry = Geometry { p1, p2 };
    let c = sail_announce::announce(
        Table { geometry, count },
        list,
        first,
        second,
        third,
        own2,
        own3,
        long1,
        long2,
        addr,
        narrow8(len),
        narrow16(hop),
        narrow8(mark),
    );
    let t = c.table;
    let n = t.count;
    let a = c.answer;
    packing_tables::announced(a, n)
}

// A route is taken out of the table.
#[unsafe(no_mangle)]
pub extern "C" fn gh_withdraw(
    p1: u32,
    p2: u32,
    count: u32,
    list: &mut [u8],
    first: &mut [u16],
    second: &mut [u16],
    third: &mut [u16],
    own2: &mut [u32],
    own3: &mut [u32],
    long1: &mut [u16],
    long2: &mut [u16],
    addr: u32,
    len: u32,
) -> u64
    ensures { card result (lent list.new first.new second.new third.new own2.new
        own3.new long1.new long2.new) ≡ card_of (withdrawn (table_of p1 p2 count)
        (lent list.old first.old second.old third.old own2.old own3.old
        long1.old long2.old) addr len) }
{
    let geometry = Geometry { p1, p2 };
    let c = sail_withdraw::withdraw(
        Table { geometry, count },
        list,
        first,
        second,
        third,
        own2,
        own3,
        long1,
        long2,
        addr,
        narrow8(len),
    );
    let t = c.table;
    let n = t.count;
    let a = c.answer;
    packing_tables::withdrawn(a, n)
}

// The route count and both needs.
#[unsafe(no_mangle)]
pub extern "C" fn gh_report(
    p1: u32,
    p2: u32,
    count: u32,
    list: &[u8],
    first: &[u16],
    second: &[u16],
    third: &[u16],
    own2: &[u32],
    own3: &[u32],
    long1: &[u16],
    long2: &[u16],
) -> u64
    ensures { result ≡ pack_report (reported (table_of p1 p2 count)
        (lent list.now first.now second.now third.now own2.now own3.now
        long1.now long2.now)) }
{
    let t = Table {
        geometry: Geometry { p1, p2 },
        count,
    };
    let arrays = Arrays {
        list,
        first,
        second,
        third,
        own2,
        own3,
        long1,
        long2,
    };
    packing_tables::reported(sail_sound::report::report(t, arrays))
}
