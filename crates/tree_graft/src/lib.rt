// A node more in an image, or one less, in place: an empty child put under a node or taken away. What is left is exactly the image with that node or
// without it.
#![tactic(auto)]

ghost use Rattle.tree_hold.specs.Edits.{Grafted, Pruned, Prunable};
ghost use Rattle.tree_graft.specs.Ready.{GraftReady};

use tree_node::{put, run};
use tree_places::bases;

// An empty child c under node x of n nodes and k hops; answers its place. The empty node is written after the last one and a gap opened at
// the place: the node that is left there has, with the child bases after the parent one more, the bases of the new one.
pub fn graft(words: &mut [u32], n: usize, k: usize, x: usize, c: u32) -> usize
    requires { GraftReady words.old n k x c }
    ensures { Grafted words.old words.new n x c result }
{
    let word = words[3 * x];
    let y = tree_places::child_place(words, x, c);
    put::put_node(words, n, 0, n as u32, k as u32);
    moves::up(words, 3 * y, 3 * n, 3);
    bases::each(words, 1, x + 1, n + 1, |base| base + 1);
    words[3 * y] = 0;
    words[3 * x] = run::with_bit(word, 16 + c);
    y
}

// The empty child c of node x taken away; n nodes are left.
pub fn prune(words: &mut [u32], n: usize, k: usize, x: usize, c: u32)
    requires { Prunable words.old n k x c }
    ensures { Pruned words.old words.new n x c }
{
    let word = words[3 * x];
    let y = tree_places::child_place(words, x, c);
    words[3 * x] = tree_places::without_bit(word, 16 + c);
    bases::each(words, 1, x + 1, n + 1, |base| base - 1);
    moves::down(words, 3 * y, 3 * n, 3);
    put::put_node(words, n, 0, 0, 0);
}
