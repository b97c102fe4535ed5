// Lookups. The words come from `sail_words`; here the three numbers of the state become a table.
ghost use Rattle.std.specs.Prelude.{◌≡◌};
ghost use Rattle.sail.specs.Lent.{lent};
ghost use Rattle.sail.specs.Walk.{lookup_said};
ghost use Rattle.sail.specs.Word.{pack_found};
ghost use Rattle.sail_words.specs.Lookups.{table_of, words_card, many_card};

use sail::arrays::Arrays;
use sail::geometry::Geometry;
use sail::table::Table;
use sail_words::{look_each, look_quick};

// The hop for one address, with the count of cells read.
#[unsafe(no_mangle)]
pub extern "C" fn gh_lookup(
    p1: u32,
    p2: u32,
    count: u32,
    list: &[u8],
    first: &[u16],
    second: &[u16],
    third: &[u16],
    own2: &[u32],
    own3: &[u32],
    long1: &[u16],
    long2: &[u16],
    addr: u32,
) -> u64
    ensures { result ≡ pack_found (lookup_said (table_of p1 p2 count)
        (lent list.now first.now second.now third.now own2.now own3.now
        long1.now long2.now) addr) }
{
    let t = Table {
        geometry: Geometry { p1, p2 },
        count,
    };
    let arrays = Arrays {
        list,
        first,
        second,
        third,
        own2,
        own3,
        long1,
        long2,
    };
    look_quick(t, arrays, addr)
}

// For each address the low 32 bits of what gh_lookup answers. Geometry and sizes are checked once.
#[unsafe(no_mangle)]
pub extern "C" fn gh_lookup_many(
    p1: u32,
    p2: u32,
    count: u32,
    list: &[u8],
    first: &[u16],
    second: &[u16],
    third: &[u16],
    own2: &[u32],
    own3: &[u32],
    long1: &[u16],
    long2: &[u16],
    addrs: &[u32],
    out: &mut [u32],
) -> u64
    ensures { words_card result out.new ≡ many_card (table_of p1 p2 count)
        (lent list.now first.now second.now third.now own2.now own3.now
        long1.now long2.now) addrs.now out.old }
{
    let t = Table {
        geometry: Geometry { p1, p2 },
        count,
    };
    let arrays = Arrays {
        list,
        first,
        second,
        third,
        own2,
        own3,
        long1,
        long2,
    };
    look_each(t, arrays, addrs, out)
}
