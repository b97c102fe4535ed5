// An image filled in lent arrays that have the room for it. The words serve as the queue of nodes: the root waits first, and each node that is taken
// gets its words and leaves its children waiting.
#![tactic(auto)]

ghost use Rattle.std.specs.Prelude.{◌+◌, length};
ghost use Rattle.tree_fill.specs.Fill.{ImageRoom, State, NodeWaits, ImageFilled};

use tree_node::{put, run};

// How many nodes are done or wait, and how many hops are put.
#[derive(Clone, Copy)]
pub struct Sizes {
    pub nodes: usize,
    pub hops: usize,
}

// The node at i is taken from the queue and gets its words; its hops are put after those that are put, and its children wait after the
// nodes that wait.
fn step(list: &[u8], words: &mut [u32], hops: &mut [u16], i: usize, used: Sizes) -> Sizes
    requires { NodeWaits list.now words.old hops.old i used.nodes used.hops }
    ensures { State list.now words.new hops.new (i + 1) result.nodes result.hops }
{
    let m = words[3 * i];
    let a = words[3 * i + 1] as usize;
    let e = words[3 * i + 2] as usize;
    let word = run::node_word(list, m, a, e);
    put::put_hops(list, hops, m, a, e, word, used.hops);
    put::put_kids(list, words, m, a, e, word, used.nodes);
    put::put_node(words, i, word, used.nodes as u32, used.hops as u32);
    Sizes {
        nodes: used.nodes + bits::ones_below(word >> 16, 16) as usize,
        hops: used.hops + bits::ones_below(word, 15) as usize,
    }
}

// Zeros, and the root, which waits with the whole list.
fn start(list: &[u8], words: &mut [u32], hops: &mut [u16])
    requires { ImageRoom list.now (length words.old) (length hops.old) }
    ensures { State list.now words.new hops.new 0 1 0 }
{
    words.fill(0);
    hops.fill(0);
    put::put_node(words, 0, 0, 0, (list.len() / 8) as u32);
}

// The whole image, node by node.
pub fn fill_image(list: &[u8], words: &mut [u32], hops: &mut [u16])
    requires { ImageRoom list.now (length words.old) (length hops.old) }
    ensures { ImageFilled list.now words.old hops.old words.new hops.new }
{
    start(list, words, hops);
    let mut i: usize = 0;
    let mut used = Sizes { nodes: 1, hops: 0 };
    // Stays: each step lengthens the queue, so its end is not known before.
    while i < used.nodes {
        used = step(list, words, hops, i, used);
        i += 1;
    }
}
