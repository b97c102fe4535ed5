// The text of what a load says where it refuses, and of a sound table, whose report says what stands: written into a lent buffer.
#![tactic(auto)]

ghost use Rattle.std.specs.Prelude.{◌≤◌, length};
ghost use Rattle.numbered.specs.Numbers.{said_numbered};
ghost use Rattle.sail.specs.Arrays.{lent_by};
ghost use Rattle.sail_theory.specs.After.{no_values};
ghost use Rattle.text.specs.Text.{said_text};
ghost use Rattle.text_pieces.specs.Wrote.{Wrote};
ghost use Rattle.print_said.specs.Standing.{standing_text, PageReady};

use numbered::Numbered;
use sail::arrays::Arrays;
use sail::table::Table;
use sail_sound::report::report;
use text::line::{refusal_text, table_text};

// The text of a sound table: its report and its routes. A sound table's report is not refused.
pub fn put_standing(t: Table, a: Arrays, out: &mut [u8]) -> usize
    requires { PageReady t (lent_by a) out.old }
    ensures { Wrote out.old 0 (standing_text t (lent_by a.entry)) result out.new }
{
    match report(t, a) {
        Ok(s) => table_text(a.list, s.routes as usize, s.second, s.third, out),
        Err(why) => refusal_text(why.number(), None, out),
    }
}

// The line of a refusal. What is accepted has none.
pub fn put_said<S: Copy, E: Numbered>(a: Result<S, E>, out: &mut [u8]) -> usize
    requires { 64 ≤ length out.old }
    ensures { Wrote out.old 0 (said_text (said_numbered E.by_number no_values a)) result out.new }
{
    match a {
        Ok(_) => 0,
        Err(e) => {
            let r = e.by_number();
            refusal_text(r.number, r.at, out)
        }
    }
}
