// What is written of one node: its three words, its hops, and its children, which wait. A node that waits holds its depth and the start and the end
// of its run in the place of its three words.
ghost use Rattle.std.specs.Prelude.{◌≡◌, ◌+◌, ◌*◌, ◌^◌, ◌≤◌, ◌<◌, length};
ghost use Rattle.tree_node.specs.Queue.{put3, HopsReady, HopsPut, KidsReady, KidsPut};

use crate::run;
use records::record;

// The three words of node x.
pub fn put_node(words: &mut [u32], x: usize, bits: u32, child: u32, hop: u32)
    requires { 3 * x + 3 ≤ length words.old }
    ensures { words.new ≡ put3 words.old x bits «child» hop }
{
    words[3 * x] = bits;
    words[3 * x + 1] = child;
    words[3 * x + 2] = hop;
}

// The hops of a node, each at its place: the hop base and the ones below its bit.
pub fn put_hops(list: &[u8], hops: &mut [u16], m: u32, a: usize, e: usize, word: u32, base: usize)
    requires { HopsReady list.now m a e word base hops.old }
    ensures { HopsPut list.now m a base hops.old hops.new }
{
    for k in a..e {
        let r = record::read_record(list, k);
        let len = u32::from(r.len);
        if len < 4 * (m + 1) {
            let below = bits::ones_below(word, run::node_bit(r.addr, len, m));
            hops[base + below as usize] = r.hop;
        }
    }
}

// The children of a node, each at its place: t and the extending ones below its bit. They wait there, each with its run.
pub fn put_kids(list: &[u8], words: &mut [u32], m: u32, a: usize, e: usize, word: u32, t: usize)
    requires { KidsReady list.now m a e word t words.old }
    ensures { KidsPut list.now m a t words.old words.new }
{
    let mut k = a;
    // Stays: one turn takes a whole run, so k is no counter of a `for`.
    while k < e {
        let from = k;
        let r = record::read_record(list, from);
        if u32::from(r.len) < 4 * (m + 1) {
            k += 1;
        } else {
            k = run::run_end(list, m + 1, from, e);
            let below = bits::ones_below(word >> 16, bits::slot(4 * (m + 1), r.addr) % 16);
            put_node(words, t + below as usize, m + 1, from as u32, k as u32);
        }
    }
}
