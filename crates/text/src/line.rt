// Lines: a table's, and a refusal's.
ghost use Rattle.std.specs.Prelude.{◌≤◌, length};
ghost use Rattle.routes.specs.Record.{routes_of};
ghost use Rattle.routes.specs.Said.{refused_by};
ghost use Rattle.text_pieces.specs.Page.{Room, Writes};
ghost use Rattle.text_pieces.specs.Wrote.{Wrote};
ghost use Rattle.text.specs.Text.{head_line, table_text, said_text, Printable};

use records::record::read_record;
use text_pieces::page::Page;
use text_routes::put_route;

// A table's first line.
fn put_head(page: &mut Page, n: usize, second: u32, third: u32)
    requires { Room page.old (head_line n second third) }
    ensures { Writes page.old (head_line n second third) page.new }
{
    page.labelled("routes ", n as u64);
    page.labelled(" second ", second as u64);
    page.labelled(" third ", third as u64);
    page.byte(b'\n');
}

// The text of a table: its first n records, and its needs for second and third chunks.
// Stays: n beside the list, as a table has its count beside the list that it is lent: a caller would write `&list[..n * 8]`, which is no plainer.
pub fn table_text(list: &[u8], n: usize, second: u32, third: u32, out: &mut [u8]) -> usize
    requires { Printable list.now n out.old }
    ensures { Wrote out.old 0 (table_text (routes_of list.now n) second third) result out.new }
{
    let mut page = Page { out, at: 0 };
    put_head(&mut page, n, second, third);
    for k in 0..n {
        put_route(&mut page, read_record(list, k));
    }
    page.at
}

// The line of a refusal: its number, and the index of a record where it carries one.
pub fn refusal_text(number: u8, index: Option<usize>, out: &mut [u8]) -> usize
    requires { 64 ≤ length out.old }
    ensures { Wrote out.old 0 (said_text (refused_by number index)) result out.new }
{
    let mut page = Page { out, at: 0 };
    page.labelled("refused ", number as u64);
    if let Some(k) = index {
        page.labelled(" at ", k as u64);
    }
    page.byte(b'\n');
    page.at
}
