// A route's line, written on a page.
#![tactic(auto)]

ghost use Rattle.text_pieces.specs.Page.{Room, Writes};
ghost use Rattle.text_routes.specs.RouteLine.{mark_text, route_line};

use routes::Route;
use text_pieces::page::Page;

// That the network is attached, where the mark is 1.
fn put_mark(page: &mut Page, mark: u8)
    requires { Room page.old (mark_text mark) }
    ensures { Writes page.old (mark_text mark) page.new }
{
    if mark == 1 {
        page.text(" attached");
    }
}

// A route's line.
pub fn put_route(page: &mut Page, r: Route)
    requires { Room page.old (route_line r) }
    ensures { Writes page.old (route_line r) page.new }
{
    page.address(r.addr);
    page.labelled("/", r.len as u64);
    page.labelled(" ", r.hop as u64);
    put_mark(page, r.mark);
    page.byte(b'\n');
}
