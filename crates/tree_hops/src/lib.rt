// A hop more in an image, or one less, in place: what is left is exactly the image of the routes with it or without it.
#![tactic(auto)]

ghost use Rattle.tree_same.specs.Read.{hop_place_at};
ghost use Rattle.tree_hold.specs.Edits.{HopPut, HopTaken, Takable};
ghost use Rattle.tree_hops.specs.Ready.{PutReady};

use tree_node::run;
use tree_places::bases;

// The hop h at the internal bit b of node x, of n nodes and k hops.
pub fn put_hop(words: &mut [u32], hops: &mut [u16], n: usize, k: usize, x: usize, b: u32, h: u16)
    requires { PutReady words.old hops.old n k x b }
    ensures { HopPut words.old words.new hops.old hops.new n x b (hop_place_at words.old x b) h }
{
    let word = words[3 * x];
    let y = tree_places::hop_place(words, x, b);
    moves::up(hops, y, k, 1);
    hops[y] = h;
    bases::each(words, 2, x + 1, n, |base| base + 1);
    words[3 * x] = run::with_bit(word, b);
}

// The hop at the internal bit b of node x taken away; k hops are left.
pub fn take_hop(words: &mut [u32], hops: &mut [u16], n: usize, k: usize, x: usize, b: u32)
    requires { Takable words.old hops.old n k x b }
    ensures { HopTaken words.old words.new hops.old hops.new n x b }
{
    let word = words[3 * x];
    let y = tree_places::hop_place(words, x, b);
    words[3 * x] = tree_places::without_bit(word, b);
    bases::each(words, 2, x + 1, n, |base| base - 1);
    moves::down(hops, y, k, 1);
    hops[k] = 0;
}
