// The test of an image: its bases in one pass, then its nodes from the root down, its hops, and zeros after the last used.
#![tactic(auto)]

pub mod nodes;

ghost use Rattle.std.specs.Prelude.{◌≡◌, ◌+◌, ◌*◌, ◌≤◌, ◌<◌, length};
ghost use Rattle.tree_same.specs.Order.{ints};
ghost use Rattle.tree_check.specs.Contract.{MeetsTreeTest};
ghost use Rattle.tree_formed.specs.WellFormed.{ordered, hops_fine_to, well_formed, nodes_if, nodes_where};

use crate::nodes::root_ok;
use buffers_test::zeros::zeros;
use refusals::Refusal;
use routes::input::hop_ok;
use tree_bases::shape;
use tree_image::Used;

// The hops of the first n nodes: the hop base of the last one and its own.
pub fn hops_in(words: &[u32], n: usize) -> usize
    requires { (0 < n) × (3 * n ≤ length words.now) × (n ≡ nodes_if (ordered words.now) words.now) }
    ensures { result ≡ ints words.now n }
{
    words[3 * (n - 1) + 2] as usize + bits::ones_below(words[3 * (n - 1)], 15) as usize
}

// Whether the first k hops are 1 to 32,767 each. No early end, so that it can be done several hops at a time.
fn hops_fine(hops: &[u16], k: usize) -> bool
    requires { k ≤ length hops.now }
    ensures { result ≡ hops_fine_to hops.now k }
{
    let mut fine = true;
    for j in 0..k {
        fine &= hop_ok(hops[j]);
    }
    fine
}

// The test of the whole image: the nodes in use, which are never 0, if it is well formed.
pub fn check(words: &[u32], hops: &[u16]) -> Option<usize>
    ensures { result ≡ nodes_where (well_formed words.now hops.now) words.now }
{
    let n = shape(words)?;
    if !root_ok(words) {
        return None;
    }
    let k = hops_in(words, n);
    if k > hops.len() {
        return None;
    }
    if k > 4096 {
        return None;
    }
    if !hops_fine(hops, k) {
        return None;
    }
    if !zeros(words, 3 * n, words.len()) {
        return None;
    }
    if !zeros(hops, k, hops.len()) {
        return None;
    }
    Some(n)
}

// Tests an image, whatever the two arrays hold.
pub fn test(words: &[u32], hops: &[u16]) -> Result<Used, Refusal>
    ensures { MeetsTreeTest words.now hops.now result }
{
    let Some(n) = check(words, hops) else {
        return Err(Refusal::Broken);
    };
    Ok(Used {
        nodes: n as u32,
        hops: hops_in(words, n) as u32,
    })
}
