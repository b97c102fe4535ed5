// Announce and withdraw on an image itself: no list, no state and no copy of it. The image is tested first; what the change leaves is what a
// build of the routes then standing would.
#![tactic(auto)]

ghost use Rattle.tree_change.specs.Contract.{MeetsTreeAnnounce, MeetsTreeWithdraw};

use refusals::Refusal;
use routes::input::{hop_ok, prefix_ok};
use tree_check::check;
use tree_image::Used;
use tree_put::{put, take};
use tree_theory::Announced;

// Adds a route to an image, or replaces the hop of its prefix. A refusal leaves both arrays as they were.
pub fn announce(
    words: &mut [u32],
    hops: &mut [u16],
    addr: u32,
    len: u8,
    hop: u16,
) -> Result<Announced, Refusal>
    ensures { MeetsTreeAnnounce words.old hops.old addr len hop result words.new hops.new }
{
    if !prefix_ok(addr, len) {
        return Err(Refusal::Prefix);
    }
    if !hop_ok(hop) {
        return Err(Refusal::Hop);
    }
    let Some(n) = check(words, hops) else {
        return Err(Refusal::Broken);
    };
    put(words, hops, n, addr, u32::from(len), hop)
}

// Takes a prefix out of an image. A refusal leaves both arrays as they were.
pub fn withdraw(words: &mut [u32], hops: &mut [u16], addr: u32, len: u8) -> Result<Used, Refusal>
    ensures { MeetsTreeWithdraw words.old hops.old addr len result words.new hops.new }
{
    if !prefix_ok(addr, len) {
        return Err(Refusal::Prefix);
    }
    let Some(n) = check(words, hops) else {
        return Err(Refusal::Broken);
    };
    take(words, hops, n, addr, u32::from(len))
}
