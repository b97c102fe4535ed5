// What a step says.
use sail::table::Table;
use std::fmt;
use vectors_probes::looks::Sums;

// Which call answers.
#[derive(Clone, Copy)]
pub enum Call {
    Make,
    Load,
    Announce,
    Withdraw,
    Repair,
    Lookup,
    Report,
}

impl fmt::Display for Call {
    fn fmt<W: fmt::Write>(&self, f: &mut fmt::Formatter<W>) -> fmt::Result {
        f.write_str(match self {
            Call::Make => "make",
            Call::Load => "load",
            Call::Announce => "announce",
            Call::Withdraw => "withdraw",
            Call::Repair => "repair",
            Call::Lookup => "lookup",
            Call::Report => "report",
        })
    }
}

// What it answers. A change tells whether it cleared bits.
#[derive(Clone, Copy)]
pub enum Answer {
    Done,
    Refused(u64),
    RefusedAt(u64, u64),
    Added {
        cleared: bool,
    },
    Replaced {
        cleared: bool,
    },
    Removed {
        cleared: bool,
    },
    Repaired {
        dropped: u64,
        first: u64,
        second: u64,
        third: u64,
    },
    Hop {
        hop: u64,
        cells: u64,
    },
    NoRoute {
        cells: u64,
    },
    Standing {
        routes: u64,
        second: u64,
        third: u64,
    },
}

fn cleared_or_not(cleared: bool) -> &'static str {
    if cleared { " cleared" } else { "" }
}

impl fmt::Display for Answer {
    fn fmt<W: fmt::Write>(&self, f: &mut fmt::Formatter<W>) -> fmt::Result {
        match *self {
            Answer::Done => f.write_str("done"),
            Answer::Refused(number) => write!(f, "refused {number}"),
            Answer::RefusedAt(number, k) => write!(f, "refused {number} at {k}"),
            Answer::Added { cleared } => write!(f, "added{}", cleared_or_not(cleared)),
            Answer::Replaced { cleared } => write!(f, "replaced{}", cleared_or_not(cleared)),
            Answer::Removed { cleared } => write!(f, "removed{}", cleared_or_not(cleared)),
            Answer::Repaired {
                dropped,
                first,
                second,
                third,
            } => {
                write!(
                    f,
                    "dropped {dropped} first {first} second {second} third {third}"
                )
            }
            Answer::Hop { hop, cells } => write!(f, "hop {hop} cells {cells}"),
            Answer::NoRoute { cells } => write!(f, "no route cells {cells}"),
            Answer::Standing {
                routes,
                second,
                third,
            } => write!(f, "routes {routes} second {second} third {third}"),
        }
    }
}

// The answer of a call, or the sums of drawn lookups.
#[derive(Clone, Copy)]
pub enum Said {
    Nothing,
    Called(Call, Answer),
    Looked(Sums),
}

// The state after a step, and what the step said.
#[derive(Clone, Copy)]
pub struct Turn {
    pub table: Table,
    pub said: Said,
}
