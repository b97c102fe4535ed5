// All that the printing program does between its read and its write: a record input is loaded, and the text of the table, or of the
// refusal, is written into a lent buffer.
#![tactic(auto)]

ghost use Rattle.std.specs.Prelude.{◌≤◌, length};
ghost use Rattle.text_pieces.specs.Wrote.{Wrote};
ghost use Rattle.print_said.specs.Standing.{page};
ghost use Rattle.print.specs.Printed.{printed_text, Printed};

use print_said::{put_said, put_standing};
use sail::arrays::Arrays;
use sail::geometry::Geometry;
use sail::table::Table;
use sail_load::load::load;

// Room for the text of any table with 64 routes, and for any refusal.
pub const PAGE: usize = 4096;

// The input is loaded into a table of the small geometry with room for 64 records and 4 chunks in each pool.
fn put_loaded(input: &[u8], out: &mut [u8]) -> usize
    requires { page ≤ length out.old }
    ensures { Wrote out.old 0 (printed_text input.now) result out.new }
{
    let mut list = [0u8; 512];
    let mut first = [0u16; 4096];
    let mut second = [0u16; 4096];
    let mut third = [0u16; 4096];
    let mut own2 = [0u32; 4];
    let mut own3 = [0u32; 4];
    let mut long1 = [0u16; 4096];
    let mut long2 = [0u16; 4096];
    let t = Table {
        geometry: Geometry::SMALL,
        count: 0,
    };
    match load(
        t,
        input,
        &mut list,
        &mut first,
        &mut second,
        &mut third,
        &mut own2,
        &mut own3,
        &mut long1,
        &mut long2,
    ) {
        Ok(table) => put_standing(
            table,
            Arrays {
                list: &list,
                first: &first,
                second: &second,
                third: &third,
                own2: &own2,
                own3: &own3,
                long1: &long1,
                long2: &long2,
            },
            out,
        ),
        Err(e) => put_said::<Table, _>(Err(e), out),
    }
}

// What is printed of an input, from the buffer's start on; the answer is how many bytes that is. A buffer of less than a page is left as it
// was, and the answer is 0.
pub fn printed(input: &[u8], out: &mut [u8]) -> usize
    ensures { Printed input.now out.old result out.new }
{
    if out.len() < PAGE {
        return 0;
    }
    put_loaded(input, out)
}
