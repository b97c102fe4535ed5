// Where a script stands.
use crate::draws::Draws;
use crate::said::{Said, Turn};
use crate::step::Step;
use records::record::write_record;
use routes::Route;
use sail::geometry::Geometry;
use sail::table::Table;
use std::io;
use vectors_probes::linear;
use vectors_script::Line;

// The input of a load, and how many records it has.
#[derive(Clone, Copy)]
pub struct Input {
    pub bytes: [u8; 192],
    pub count: usize,
}

// So many records, or all that there are, as that part of the bytes.
pub fn records(bytes: &[u8], n: usize) -> &[u8] {
    let end = n.min(bytes.len() / 8) * 8;
    &bytes[..end]
}

impl Input {
    pub fn records(&self) -> &[u8] {
        records(&self.bytes, self.count)
    }

    // One record more. Where there is no room for it, it is left out.
    fn push(&mut self, r: Route) {
        if self.count < 24 {
            write_record(&mut self.bytes, self.count, r);
        }
        self.count = self.count.min(23) + 1;
    }

    // The records of the list.
    fn keep(t: Table, list: &[u8]) -> Input {
        let mut bytes = [0u8; 192];
        for (byte, kept) in bytes.iter_mut().zip(list) {
            *byte = *kept;
        }
        Input {
            bytes,
            count: linear::standing(t, list),
        }
    }
}

// The state of the table, the place in the script, the drawn changes, and the input of a load.
#[derive(Clone, Copy)]
pub struct World {
    pub table: Table,
    pub at: usize,
    pub draws: Draws,
    pub input: Input,
}

impl World {
    // A fresh start at the standard geometry.
    pub fn start() -> World {
        World {
            table: Table {
                geometry: Geometry::STANDARD,
                count: 0,
            },
            at: 0,
            draws: Draws::default(),
            input: Input {
                bytes: [0; 192],
                count: 0,
            },
        }
    }

    // The next step: a drawn one where some are left, and otherwise what the line asks for.
    pub fn next(&self, line: Line, list: &[u8]) -> Option<Step> {
        if self.draws.left != 0 {
            return Some(self.draws.next(self.table, list));
        }
        Step::of(line, self.draws.x)
    }

    // A step is made: what it says is printed, where it is none of many, and what else the line asks for is done.
    pub fn after(
        &mut self,
        rt: &impl Print,
        line: Line,
        step: Step,
        turn: Turn,
        list: &[u8],
    ) -> io::Result<()> {
        self.table = turn.table;
        if self.draws.left != 0 {
            self.draws.after(turn.said);
            return Ok(());
        }
        self.at = line.next;
        if !line.quiet {
            say(rt, turn.said)?;
        }
        match step {
            Step::State(table) => self.table = table,
            // Each change has lookups after it.
            Step::Draw { changes, from } => {
                self.draws = Draws::start(changes.wrapping_mul(2), from);
            }
            Step::Numbers => self.draws.told(rt)?,
            Step::Input(route) => self.input.push(route),
            Step::Keep => self.input = Input::keep(turn.table, list),
            _ => {}
        }
        Ok(())
    }
}

// A line of its own, where there is something to say.
fn say(rt: &impl Print, said: Said) -> io::Result<()> {
    match said {
        Said::Nothing => Ok(()),
        Said::Called(call, answer) => println!(rt; "{call} {answer}"),
        Said::Looked(sums) => println!(rt; "{sums}"),
    }
}
