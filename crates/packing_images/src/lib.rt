// The answers of the calls on an image: build, lookup, the test and the changes.
#![tactic(auto)]

ghost use Rattle.std.specs.Prelude.{◌≡◌};
ghost use Rattle.routes.specs.Answers.{means_found};
ghost use Rattle.sail.specs.Word.{pack_found};
ghost use Rattle.numbered.specs.Numbers.{said_numbered};
ghost use Rattle.tree_formed.specs.Answers.{means_tested};
ghost use Rattle.tree_image.specs.Reads.{used_values};
ghost use Rattle.tree_theory.specs.Changed.{announced_values};
ghost use Rattle.packing.specs.Pack.{pack_built};
ghost use Rattle.packing.specs.ImageAnswers.{pack_image};

use numbered::Numbered;
use packing::{found_number, refused, used};
use refusals::Refusal;
use routes::found::Found;
use tree_image::Used;
use tree_theory::{Announced, Change};

pub fn tree_found(a: Result<Found, Refusal>) -> u64
    ensures { result ≡ pack_found (means_found a) }
{
    match a {
        Ok(f) => found_number(f.reads, f.hop.unwrap_or(0)),
        Err(why) => u64::from(why.number()),
    }
}

pub fn built<E: Numbered>(a: Result<Used, E>) -> u64
    ensures { result ≡ pack_built (said_numbered E.by_number used_values a) }
{
    match a {
        Ok(u) => used(false, u.nodes, u.hops),
        Err(e) => refused(e),
    }
}

pub fn tested(a: Result<Used, Refusal>) -> u64
    ensures { result ≡ pack_built (means_tested a) }
{
    match a {
        Ok(u) => used(false, u.nodes, u.hops),
        Err(e) => u64::from(e.number()),
    }
}

pub fn announced<E: Numbered>(a: Result<Announced, E>) -> u64
    ensures { result ≡ pack_image (said_numbered E.by_number announced_values a) }
{
    match a {
        Ok(a) => match a.change {
            Change::Added => used(false, a.used.nodes, a.used.hops),
            Change::Replaced => used(true, a.used.nodes, a.used.hops),
        },
        Err(e) => refused(e),
    }
}

pub fn withdrawn<E: Numbered>(a: Result<Used, E>) -> u64
    ensures { result ≡ pack_built (said_numbered E.by_number used_values a) }
{
    match a {
        Ok(left) => used(false, left.nodes, left.hops),
        Err(why) => refused(why),
    }
}
