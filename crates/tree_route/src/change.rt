// A change of an image that was found well formed: a prefix put in, its hop replaced, or a prefix taken out.
ghost use Rattle.std.specs.Prelude.{◌≡◌, ◌&&◌, ◌+◌, ◌*◌, ◌≤◌, ◌<◌, eqb, ltb};
ghost use Rattle.bits.specs.Slot.{slot};
ghost use Rattle.tree_image.specs.Node.{bits_of};
ghost use Rattle.tree_same.specs.Read.{reached};
ghost use Rattle.tree_theory.specs.Stages.{Addable, Standing, OnPath, BecomeWith, BecomeWithout};

use crate::path;
use crate::path::{Gap, Spot};

// The nodes that the path of a prefix lacks, from the node at hand down, and then its hop. Answers how many nodes are then in use.
pub fn add(
    words: &mut [u32],
    hops: &mut [u16],
    n: usize,
    k: usize,
    from: Gap,
    addr: u32,
    len: u32,
    hop: u16,
) -> usize
    requires { Addable words.old hops.old n k from.at from.depth addr len hop from.bit }
    ensures { BecomeWith words.old hops.old addr len hop words.new hops.new result }
{
    let deep = len / 4;
    let mut at = from.at;
    let mut nodes = n;
    for m in from.depth..deep {
        at = tree_graft::graft(words, nodes, k, at, path::turn(addr, m));
        nodes += 1;
    }
    tree_hops::put_hop(words, hops, nodes, k, at, from.bit, hop);
    nodes
}

// The hop of a prefix that stands, replaced: one store.
pub fn replace(
    words: &[u32],
    hops: &mut [u16],
    n: usize,
    k: usize,
    spot: Spot,
    addr: u32,
    len: u32,
    hop: u16,
)
    requires { Standing words.now hops.old n k spot.at addr len spot.bit × (0 < hop) × (hop ≤ 32767) }
    ensures { BecomeWith words.now hops.old addr len hop words.now hops.new n }
{
    let y = tree_places::hop_place(words, spot.at, spot.bit);
    hops[y] = hop;
}

// Whether the node of depth m of the path is not the root and has no bit at all.
fn bare(words: &[u32], n: usize, addr: u32, m: u32) -> bool
    requires { OnPath words.now n addr m }
    ensures { result ≡ (ltb 0 m && eqb (bits_of words.now (reached words.now m (slot (4 * m) addr))) 0) }
{
    if m == 0 {
        return false;
    }
    let last = path::descend(words, n, addr, m);
    words[3 * last.at] == 0
}

// A prefix that stands is taken out: its hop, and then the nodes of its path that have no bit left, upwards; k hops are left. Answers how many
// nodes are then in use.
pub fn remove(
    words: &mut [u32],
    hops: &mut [u16],
    n: usize,
    k: usize,
    spot: Spot,
    addr: u32,
    len: u32,
) -> usize
    requires { Standing words.old hops.old n (k + 1) spot.at addr len spot.bit }
    ensures { BecomeWithout words.old hops.old addr len words.new hops.new result }
{
    tree_hops::take_hop(words, hops, n, k, spot.at, spot.bit);
    let mut m = len / 4;
    let mut nodes = n;
    // Stays: what ends the way up is a node that has a bit, and not a depth.
    while bare(words, nodes, addr, m) {
        m -= 1;
        nodes -= 1;
        let up = path::descend(words, nodes + 1, addr, m);
        tree_graft::prune(words, nodes, k, up.at, path::turn(addr, m));
    }
    nodes
}
