// The header step of a router.
ghost use Rattle.packets.specs.Contract.{MeetsStep};
ghost use Rattle.sail.specs.Lent.{lent};
ghost use Rattle.sail_words.specs.Lookups.{table_of};

use packets::step;
use sail::arrays::Arrays;
use sail::geometry::Geometry;
use sail::table::Table;

// A packet's header is checked and its destination looked up; with a hop its time to live is lowered and its checksum mended.
#[unsafe(no_mangle)]
pub extern "C" fn gh_step(
    p1: u32,
    p2: u32,
    count: u32,
    list: &[u8],
    first: &[u16],
    second: &[u16],
    third: &[u16],
    own2: &[u32],
    own3: &[u32],
    long1: &[u16],
    long2: &[u16],
    packet: &mut [u8],
) -> u64
    ensures { MeetsStep (table_of p1 p2 count)
        (lent list.now first.now second.now third.now own2.now own3.now
        long1.now long2.now) packet.old result packet.new }
{
    let t = Table {
        geometry: Geometry { p1, p2 },
        count,
    };
    let arrays = Arrays {
        list,
        first,
        second,
        third,
        own2,
        own3,
        long1,
        long2,
    };
    step(t, arrays, packet)
}
