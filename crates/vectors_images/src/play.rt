// A player of scripts on an image: each step is a call, an edit or a look at what is lent, and prints what it gives. `build` builds list A over
// whatever the arrays hold, `build 10.1.2.200/32 to 57` that route alone; in brackets a build prints nothing. `find 10.1.2.200` looks up, `test`
// tests, `announce 10.1.2.64/26 to 9` and `withdraw 10.1.2.128/25` change, `image` and `numbers` show the arrays, `put 19: 8` makes a word another
// and `hop 4: 32768` a hop.
use crate::shown;
use records::record::write_record;
use refusals::Refused;
use routes::Route;
use std::io;
use tree_build::build;
use tree_change::{announce, withdraw};
use tree_check::test;
use tree_image::Used;
use vectors_script::{Line, line_at};
use vectors_shared::list::list_a;

#[derive(Clone, Copy)]
enum Step {
    Build(Option<Route>),
    Find(u32),
    Test,
    Announce(Route),
    Withdraw(Route),
    Image,
    Numbers,
    Word { at: usize, value: u32 },
    Hop { at: usize, value: u16 },
}

impl Step {
    // The step that a line asks for.
    fn of(line: Line) -> Option<Step> {
        let route = Route {
            addr: line.addr(),
            len: line.len(),
            mark: 0,
            hop: line.hop(),
        };
        let at = line.v[0] as usize;
        let value = line.v[1];
        match line.letter {
            b'b' if line.n == 0 => Some(Step::Build(None)),
            b'b' => Some(Step::Build(Some(route))),
            b'f' => Some(Step::Find(route.addr)),
            b't' => Some(Step::Test),
            b'a' => Some(Step::Announce(route)),
            b'w' => Some(Step::Withdraw(route)),
            b'i' => Some(Step::Image),
            b'n' => Some(Step::Numbers),
            b'p' => Some(Step::Word { at, value }),
            b'h' => Some(Step::Hop {
                at,
                value: (value % 65536) as u16,
            }),
            _ => None,
        }
    }
}

// The image of a route, or of list A.
fn built(route: Option<Route>, words: &mut [u32], hops: &mut [u16]) -> Result<Used, Refused> {
    let Some(r) = route else {
        return build(&list_a(), words, hops);
    };
    let mut record = [0u8; 8];
    write_record(&mut record, 0, r);
    build(&record, words, hops)
}

fn turn(
    rt: &impl Print,
    step: Step,
    quiet: bool,
    words: &mut [u32],
    hops: &mut [u16],
) -> io::Result<()> {
    match step {
        Step::Build(route) => {
            let answer = built(route, words, hops);
            if quiet {
                return Ok(());
            }
            shown::built(rt, answer)
        }
        Step::Find(addr) => shown::found(rt, tree::lookup(words, hops, addr)),
        Step::Test => shown::tested(rt, test(words, hops)),
        Step::Announce(r) => shown::announced(rt, announce(words, hops, r.addr, r.len, r.hop)),
        Step::Withdraw(r) => shown::withdrawn(rt, withdraw(words, hops, r.addr, r.len)),
        Step::Image => shown::image(rt, words, hops),
        Step::Numbers => shown::numbers(rt, words, hops),
        Step::Word { at, value } => {
            if let Some(word) = words.get_mut(at) {
                *word = value;
            }
            Ok(())
        }
        Step::Hop { at, value } => {
            if let Some(hop) = hops.get_mut(at) {
                *hop = value;
            }
            Ok(())
        }
    }
}

// No script has more than 40 steps.
pub fn play(rt: &impl Print, script: &[u8], words: &mut [u32], hops: &mut [u16]) -> io::Result<()> {
    let mut at = 0;
    for _ in 0..40 {
        let line = line_at(script, at);
        if let Some(step) = Step::of(line) {
            turn(rt, step, line.quiet, words, hops)?;
        }
        at = line.next;
    }
    Ok(())
}
