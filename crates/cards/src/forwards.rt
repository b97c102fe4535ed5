// Packets and hop records: one counted by the word of its lookup, and one looked up and counted. All that depends on a word or a record is below them,
// in `hop_records`.
ghost use Rattle.hop_records.specs.Contract.{MeetsCount, MeetsForward};
ghost use Rattle.sail.specs.Lent.{lent};
ghost use Rattle.sail.specs.Walk.{lookup_said};
ghost use Rattle.sail_words.specs.Lookups.{table_of};

use hop_records::{HopRecord, place, send, without_record};
use sail::arrays::Arrays;
use sail::geometry::Geometry;
use sail::table::Table;
use sail_words::look_quick;

// A packet whose lookup answered `found`: its record is counted, and the answer has the port.
#[unsafe(no_mangle)]
pub extern "C" fn gh_count(found: u64, records: &mut [HopRecord], octets: u32) -> u64
    ensures { MeetsCount records.old found octets result records.new }
{
    let k = place(found, records.len());
    let none = without_record(found);
    send(records, k, octets, found, none)
}

// The lookup of an address with the port of its hop's record, which alone is counted.
#[unsafe(no_mangle)]
pub extern "C" fn gh_forward(
    p1: u32,
    p2: u32,
    count: u32,
    list: &[u8],
    first: &[u16],
    second: &[u16],
    third: &[u16],
    own2: &[u32],
    own3: &[u32],
    long1: &[u16],
    long2: &[u16],
    records: &mut [HopRecord],
    addr: u32,
    octets: u32,
) -> u64
    ensures { MeetsForward records.old (lookup_said (table_of p1 p2 count)
        (lent list.now first.now second.now third.now own2.now own3.now
        long1.now long2.now) addr) octets result records.new }
{
    let t = Table {
        geometry: Geometry { p1, p2 },
        count,
    };
    let arrays = Arrays {
        list,
        first,
        second,
        third,
        own2,
        own3,
        long1,
        long2,
    };
    let found = look_quick(t, arrays, addr);
    gh_count(found, records, octets)
}
