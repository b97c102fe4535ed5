// One step on a table.
use crate::said;
use sail::arrays::Arrays;
use sail::table::Table;
use sail_announce::announce;
use sail_load::load::load;
use sail_lookup::lookup;
use sail_make::make;
use sail_sound::report::report;
use sail_withdraw::withdraw;
use std::io;
use vectors_probes::looks::look;
use vectors_probes::{only, show};
use vectors_steps::said::{Said, Turn};
use vectors_steps::step::{Level, Step};
use vectors_steps::world::Input;

// A look at the table: what a call answers, or lines printed of what is lent.
fn read(rt: &impl Print, step: Step, t: Table, a: Arrays) -> io::Result<Said> {
    match step {
        Step::Find(addr) => {
            return Ok(said::found(lookup(t, a, addr)));
        }
        Step::Tell => {
            return Ok(said::reported(report(t, a)));
        }
        Step::Judge(x, sums) => {
            return Ok(Said::Looked(look(t, a, x, sums)));
        }
        Step::Entry(k) => show::record(rt, a.list, k)?,
        Step::Cell(Level::First, at) => show::cell(rt, a.first, a.own2, at)?,
        Step::Cell(Level::Second, at) => show::cell(rt, a.second, a.own3, at)?,
        Step::Only => only::only_24(rt, a)?,
        Step::Hash => show::sums(rt, a)?,
        _ => {}
    }
    Ok(Said::Nothing)
}

pub fn turn(
    rt: &impl Print,
    step: Step,
    t: Table,
    input: Input,
    list: &mut [u8],
    first: &mut [u16],
    second: &mut [u16],
    third: &mut [u16],
    own2: &mut [u32],
    own3: &mut [u32],
    long1: &mut [u16],
    long2: &mut [u16],
) -> io::Result<Turn> {
    match step {
        Step::Make => {
            let r = make(t, list, first, second, third, own2, own3, long1, long2);
            Ok(said::made(t, r))
        }
        Step::Load => {
            let r = load(
                t,
                input.records(),
                list,
                first,
                second,
                third,
                own2,
                own3,
                long1,
                long2,
            );
            Ok(said::loaded(t, r))
        }
        Step::Announce(r) => {
            let r = announce(
                t, list, first, second, third, own2, own3, long1, long2, r.addr, r.len, r.hop,
                r.mark,
            );
            Ok(said::announced(r))
        }
        Step::Withdraw(r) => {
            let r = withdraw(
                t, list, first, second, third, own2, own3, long1, long2, r.addr, r.len,
            );
            Ok(said::withdrawn(r))
        }
        Step::Repair => {
            let r = repair::repair::repair(t, list, first, second, third, own2, own3, long1, long2);
            Ok(said::repaired(r))
        }
        Step::Put(edit) => {
            edit.put(list, first, second, third, own2, own3, long1, long2);
            Ok(Turn {
                table: t,
                said: Said::Nothing,
            })
        }
        _ => Ok(Turn {
            table: t,
            said: read(
                rt,
                step,
                t,
                Arrays {
                    list,
                    first,
                    second,
                    third,
                    own2,
                    own3,
                    long1,
                    long2,
                },
            )?,
        }),
    }
}
