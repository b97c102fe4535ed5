// The answers of the calls on a table: make, load, announce, withdraw and the report.
#![tactic(auto)]

ghost use Rattle.std.specs.Prelude.{◌≡◌};
ghost use Rattle.numbered.specs.Numbers.{said_numbered};
ghost use Rattle.sail_theory.specs.After.{no_values};
ghost use Rattle.sail_announce.specs.Answers.{means_announce};
ghost use Rattle.sail_withdraw.specs.Answers.{means_withdraw};
ghost use Rattle.sail_sound.specs.Report.{needs_told};
ghost use Rattle.packing.specs.Pack.{pack_report, pack_change};

use numbered::Numbered;
use packing::{changed, refused, report_number};
use sail_announce::answers::Announce;
use sail_sound::report::Standing;
use sail_withdraw::answers::Withdraw;

pub fn reported<E: Numbered>(a: Result<Standing, E>) -> u64
    ensures { result ≡ pack_report (said_numbered E.by_number needs_told a) }
{
    match a {
        Ok(s) => report_number(s.routes, s.second, s.third),
        Err(e) => refused(e),
    }
}

// Of a table or of a box: the count is that of the state after the call.
pub fn made<S: Copy, E: Numbered>(a: Result<S, E>, count: u32) -> u64
    ensures { result ≡ pack_change count (said_numbered E.by_number no_values a) }
{
    match a {
        Ok(_) => changed(false, false, count),
        Err(why) => refused(why),
    }
}

pub fn loaded<S: Copy, E: Numbered>(a: Result<S, E>, count: u32) -> u64
    ensures { result ≡ pack_change count (said_numbered E.by_number no_values a) }
{
    match a {
        Ok(_) => changed(false, false, count),
        Err(why) => refused(why),
    }
}

pub fn announced(a: Announce, count: u32) -> u64
    ensures { result ≡ pack_change count (means_announce a) }
{
    match a {
        Announce::Added(c) => changed(c, false, count),
        Announce::Replaced(c) => changed(c, true, count),
        Announce::Refused(z) => u64::from(z),
    }
}

pub fn withdrawn(a: Withdraw, count: u32) -> u64
    ensures { result ≡ pack_change count (means_withdraw a) }
{
    match a {
        Withdraw::Removed(c) => changed(c, false, count),
        Withdraw::Refused(z) => u64::from(z),
    }
}
