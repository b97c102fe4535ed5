// What each call says, and the state after it.
use numbered::{ByNumber, Numbered};
use repair::repair::{Repaired, RepairedTable};
use routes::found::Found;
use sail::table::Table;
use sail_announce::answers::{Announce, Announced};
use sail_sound::report::Standing;
use sail_withdraw::answers::{Withdraw, Withdrawn};
use vectors_steps::said::{Answer, Call, Said, Turn};

fn turn(table: Table, call: Call, answer: Answer) -> Turn {
    Turn {
        table,
        said: Said::Called(call, answer),
    }
}

// Why a call is refused.
fn off(e: ByNumber) -> Answer {
    match e.at {
        Some(k) => Answer::RefusedAt(e.number.into(), k as u64),
        None => Answer::Refused(e.number.into()),
    }
}

// A new state, or why there is none: then the state stays.
fn new_state<E: Numbered>(t: Table, call: Call, r: Result<Table, E>) -> Turn {
    match r {
        Ok(table) => turn(table, call, Answer::Done),
        Err(e) => turn(t, call, off(e.by_number())),
    }
}

pub fn made<E: Numbered>(t: Table, r: Result<Table, E>) -> Turn {
    new_state(t, Call::Make, r)
}

pub fn loaded<E: Numbered>(t: Table, r: Result<Table, E>) -> Turn {
    new_state(t, Call::Load, r)
}

pub fn announced(r: Announced) -> Turn {
    let answer = match r.answer {
        Announce::Added(cleared) => Answer::Added { cleared },
        Announce::Replaced(cleared) => Answer::Replaced { cleared },
        Announce::Refused(number) => Answer::Refused(number.into()),
    };
    turn(r.table, Call::Announce, answer)
}

pub fn withdrawn(r: Withdrawn) -> Turn {
    let answer = match r.answer {
        Withdraw::Removed(cleared) => Answer::Removed { cleared },
        Withdraw::Refused(number) => Answer::Refused(number.into()),
    };
    turn(r.table, Call::Withdraw, answer)
}

pub fn repaired(r: RepairedTable) -> Turn {
    let answer = match r.answer {
        Repaired::Done {
            dropped,
            first,
            second,
            third,
        } => Answer::Repaired {
            dropped: dropped.into(),
            first: first.into(),
            second: second.into(),
            third: third.into(),
        },
        Repaired::Refused(number) => Answer::Refused(number.into()),
    };
    turn(r.table, Call::Repair, answer)
}

pub fn found<E: Numbered>(answer: Result<Found, E>) -> Said {
    let answer = match answer {
        Ok(Found { hop, reads: cells }) => match hop {
            Some(hop) => Answer::Hop {
                hop: hop.into(),
                cells: cells.into(),
            },
            None => Answer::NoRoute {
                cells: cells.into(),
            },
        },
        Err(why) => off(why.by_number()),
    };
    Said::Called(Call::Lookup, answer)
}

pub fn reported<E: Numbered>(answer: Result<Standing, E>) -> Said {
    let answer = match answer {
        Ok(
            Standing {
                routes,
                second,
                third,
            },
        ) => Answer::Standing {
            routes: routes.into(),
            second: second.into(),
            third: third.into(),
        },
        Err(why) => off(why.by_number()),
    };
    Said::Called(Call::Report, answer)
}
