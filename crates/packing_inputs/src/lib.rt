// The answers of the calls on a record input: its check, a route, a run, a broadcast; a tally as words.
#![tactic(auto)]

ghost use Rattle.std.specs.Prelude.{[], ◌∷◌, ◌≡◌};
ghost use Rattle.bits.specs.Count.{bit};
ghost use Rattle.numbered.specs.Numbers.{said_numbered};
ghost use Rattle.routes.specs.Answers.{if_there};
ghost use Rattle.routes.specs.Said.{accepted};
ghost use Rattle.runs.specs.Run.{run_values};
ghost use Rattle.packing.specs.Pack.{pack_run, pack_none, pack_route};
ghost use Rattle.packing_inputs.specs.Casts.{pack_cast};

pub mod tallies;

use numbered::Numbered;
use packing::{refused, route_number, run_number};
use routes::Route;
use runs::run::Span;

pub fn input<E: Numbered>(a: Result<usize, E>) -> u64
    ensures { result ≡ pack_none (said_numbered E.by_number (λ n. n ∷ []) a) }
{
    match a {
        Ok(_) => 0,
        Err(e) => refused(e),
    }
}

// A route, and 0 for none.
fn found(r: Option<Route>) -> u64
    ensures { result ≡ pack_route (accepted (if_there r)) }
{
    match r {
        Some(r) => route_number(r),
        None => 0,
    }
}

pub fn got<E: Numbered>(a: Result<Option<Route>, E>) -> u64
    ensures { result ≡ pack_route (said_numbered E.by_number if_there a) }
{
    match a {
        Ok(r) => found(r),
        Err(e) => refused(e),
    }
}

pub fn run<E: Numbered>(a: Result<Span, E>) -> u64
    ensures { result ≡ pack_run (said_numbered E.by_number run_values a) }
{
    match a {
        Ok(r) => run_number(r.start, r.count),
        Err(e) => refused(e),
    }
}

pub fn cast_word<E: Numbered>(a: Result<bool, E>) -> u64
    ensures { result ≡ pack_cast (said_numbered E.by_number (λ b. bit b ∷ []) a) }
{
    match a {
        Ok(is_one) => u64::from(is_one) * 256,
        Err(why) => refused(why),
    }
}
