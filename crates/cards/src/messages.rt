// The calls on the route fields of BGP messages.
ghost use Rattle.std.specs.Prelude.{◌≡◌};
ghost use Rattle.fields.specs.Written.{field_written};
ghost use Rattle.sail.specs.Lent.{lent};
ghost use Rattle.sail_words.specs.Lookups.{table_of, words_card};
ghost use Rattle.update_theory.specs.Update.{updated};
ghost use Rattle.cards.specs.Cards.{card};
ghost use Rattle.cards.specs.RouteFields.{written_card_of, update_card_of};

use bits::narrow::narrow16;
use sail::geometry::Geometry;
use sail::table::Table;

// The prefixes of the input as one field, at the front of `out`.
#[unsafe(no_mangle)]
pub extern "C" fn gh_write_field(input: &[u8], out: &mut [u8]) -> u64
    ensures { words_card result out.new ≡ written_card_of (field_written input.now out.old) }
{
    packing_fields::written(fields::write::write_field(input, out))
}

// The prefixes of one field are withdrawn from the table, and then those of the other announced with the hop.
#[unsafe(no_mangle)]
pub extern "C" fn gh_update(
    p1: u32,
    p2: u32,
    count: u32,
    list: &mut [u8],
    first: &mut [u16],
    second: &mut [u16],
    third: &mut [u16],
    own2: &mut [u32],
    own3: &mut [u32],
    long1: &mut [u16],
    long2: &mut [u16],
    withdrawn: &[u8],
    reach: &[u8],
    hop: u32,
) -> u64
    ensures { card result (lent list.new first.new second.new third.new own2.new
        own3.new long1.new long2.new) ≡ update_card_of (updated (table_of p1 p2 count)
        (lent list.old first.old second.old third.old own2.old own3.old
        long1.old long2.old) withdrawn.now reach.now hop) }
{
    let geometry = Geometry { p1, p2 };
    let c = sail_update::update(
        Table { geometry, count },
        list,
        first,
        second,
        third,
        own2,
        own3,
        long1,
        long2,
        withdrawn,
        reach,
        narrow16(hop),
    );
    let t = c.table;
    let n = t.count;
    let a = c.answer;
    packing_fields::updated(a, n)
}
