// Drawn changes: how many are left and what they gave.
use crate::said::{Answer, Said};
use crate::step::Step;
use records::record::read_record;
use routes::Route;
use sail::table::Table;
use std::io;
use vectors_probes::draw::{Draw, Prefix};
use vectors_probes::linear;
use vectors_probes::looks::Sums;
use vectors_shared::shown::Numbers;

// How often each answer came: the refusals by their numbers, from 1; and how often a change said that bits were cleared.
#[derive(Clone, Copy, Default)]
pub struct Tally {
    pub refused: [u64; 10],
    pub added: u64,
    pub replaced: u64,
    pub removed: u64,
    pub cleared: u64,
}

impl Tally {
    fn count(&mut self, answer: Answer) {
        match answer {
            Answer::Added { cleared } => {
                self.added = self.added.wrapping_add(1);
                self.cleared = self.cleared.wrapping_add(u64::from(cleared));
            }
            Answer::Replaced { cleared } => {
                self.replaced = self.replaced.wrapping_add(1);
                self.cleared = self.cleared.wrapping_add(u64::from(cleared));
            }
            Answer::Removed { cleared } => {
                self.removed = self.removed.wrapping_add(1);
                self.cleared = self.cleared.wrapping_add(u64::from(cleared));
            }
            Answer::Refused(number) => {
                if let Some(count) = self.refused.get_mut((number as usize).wrapping_sub(1)) {
                    *count = count.wrapping_add(1);
                }
            }
            _ => {}
        }
    }
}

// How many steps are left, a change and the lookups after it by turns; the next drawn number; the lookups so far; and the answers so far.
#[derive(Clone, Copy, Default)]
pub struct Draws {
    pub left: u32,
    pub x: Draw,
    pub sums: Sums,
    pub tally: Tally,
}

// The prefix of a change: a standing one, which x picks, where the kind says so and there is one; otherwise a drawn one.
fn chosen(t: Table, list: &[u8], kind: u64, x: Draw) -> Prefix {
    let n = linear::standing(t, list);
    if kind < 6 || n == 0 {
        return x.prefix();
    }
    let r = read_record(list, x.0 as usize / 65536 % n);
    Prefix {
        addr: r.addr,
        len: r.len,
    }
}

impl Draws {
    // So many steps, from this number on.
    pub fn start(left: u32, x: Draw) -> Draws {
        Draws {
            left,
            x,
            ..Draws::default()
        }
    }

    // The next step: the lookups after a change, or a drawn change. Of eight kinds five announce and three withdraw.
    pub fn next(&self, t: Table, list: &[u8]) -> Step {
        if self.left % 2 == 1 {
            return Step::Judge(self.x, self.sums);
        }
        let kind = self.x.pick(8);
        let y = self.x.next();
        let Prefix { addr, len } = chosen(t, list, kind, y);
        let z = y.after(2);
        let route = Route {
            addr,
            len,
            mark: z.next().mark(),
            hop: z.hop(),
        };
        if kind < 5 {
            Step::Announce(route)
        } else {
            Step::Withdraw(route)
        }
    }

    // Lookups are made, which have these sums; or a change is, which took five drawn numbers.
    pub fn after(&mut self, said: Said) {
        self.left = self.left.wrapping_sub(1);
        match said {
            Said::Looked(sums) => self.sums = sums,
            Said::Called(_, answer) => {
                self.tally.count(answer);
                self.x = self.x.after(5);
            }
            Said::Nothing => self.x = self.x.after(5),
        }
    }

    // The changes and the lookups of a run.
    pub fn told(&self, rt: &impl Print) -> io::Result<()> {
        let Draws { sums, tally, .. } = *self;
        println!(rt;
            "added, replaced, removed {} {} {}",
            tally.added, tally.replaced, tally.removed
        )?;
        println!(rt; "cleared {}", tally.cleared)?;
        println!(rt; "refused 1 to 10:{}", Numbers(&tally.refused))?;
        println!(rt; "{sums}")
    }
}
