// A step of a script.
use routes::Route;
use sail::geometry::Geometry;
use sail::table::Table;
use vectors_probes::draw::Draw;
use vectors_probes::edit::{Array, Edit};
use vectors_probes::looks::Sums;
use vectors_script::Line;

// Which cells are shown: first or second ones.
#[derive(Clone, Copy)]
pub enum Level {
    First,
    Second,
}

#[derive(Clone, Copy)]
pub enum Step {
    // A call.
    Make,
    Load,
    Announce(Route),
    Withdraw(Route),
    Repair,
    Find(u32),
    Tell,
    // An edit of what is lent, and the state that the calls are given.
    Put(Edit),
    State(Table),
    // A look at it: a record, a cell, the table of one route, sums over the arrays, and drawn lookups.
    Entry(usize),
    Cell(Level, usize),
    Only,
    Hash,
    Judge(Draw, Sums),
    // A record more of the input of a load, or the records of the list.
    Input(Route),
    Keep,
    // Changes are drawn, so many from this number on; or it is told what they gave.
    Draw { changes: u32, from: Draw },
    Numbers,
}

impl Step {
    // The step that a line asks for, with x to draw from.
    pub fn of(line: Line, x: Draw) -> Option<Step> {
        let route = Route {
            addr: line.addr(),
            len: line.len(),
            mark: line.mark(),
            hop: line.hop(),
        };
        let [first, second, third, ..] = line.v;
        match line.letter {
            b'm' => Some(Step::Make),
            b'l' => Some(Step::Load),
            b'a' => Some(Step::Announce(route)),
            b'w' => Some(Step::Withdraw(route)),
            b'r' => Some(Step::Repair),
            b'f' => Some(Step::Find(route.addr)),
            b't' => Some(Step::Tell),
            b'p' => edit(line),
            b's' => Some(Step::State(Table {
                geometry: Geometry {
                    p1: first,
                    p2: second,
                },
                count: third,
            })),
            b'e' => Some(Step::Entry(first as usize)),
            b'c' if first == 1 => Some(Step::Cell(Level::First, second as usize)),
            b'c' => Some(Step::Cell(Level::Second, second as usize)),
            b'o' => Some(Step::Only),
            b'h' => Some(Step::Hash),
            b'j' => Some(Step::Judge(x, Sums::default())),
            b'i' => Some(Step::Input(route)),
            b'k' => Some(Step::Keep),
            b'd' => Some(Step::Draw {
                changes: first,
                from: Draw(u64::from(second)),
            }),
            b'n' => Some(Step::Numbers),
            _ => None,
        }
    }
}

fn edit(line: Line) -> Option<Step> {
    let [array, from, to, value, ..] = line.v;
    Some(Step::Put(Edit {
        array: Array::of(array)?,
        from: from as usize,
        to: to as usize,
        value,
    }))
}
