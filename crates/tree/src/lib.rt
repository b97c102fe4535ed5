// Lookup in a tree bitmap image: three words for each node, and the hops beside them.
#![tactic(auto)]

ghost use Rattle.tree.specs.Contract.{MeetsTreeLookup};

use refusals::Refusal;
use routes::found::Found;
use tree_match::{better, child, deepest, fetch, nibble, own_bit};

// Looks an address up, whatever the two arrays hold. There are d levels of nodes below the node at hand.
pub fn lookup(words: &[u32], hops: &[u16], addr: u32) -> Result<Found, Refusal>
    ensures { MeetsTreeLookup words.now hops.now addr result }
{
    let nodes = words.len() / 3;
    let mut d: u32 = 8;
    let mut at: usize = 0;
    let mut best = None;
    // Stays: the next node is named by the words, so there is no range for a `for` to go over.
    while at < nodes {
        let word = words[3 * at];
        let base = words[3 * at + 2];
        if bits::is_set(word, 15) {
            return Err(Refusal::Broken);
        }
        if d == 0 {
            return fetch(hops, better(word, base, own_bit(word), best), 9);
        }
        d -= 1;
        let v = nibble(addr, d);
        best = better(word, base, deepest(word, v), best);
        if !bits::is_set(word, 16 + v) {
            return fetch(hops, best, 8 - d);
        }
        at = child(word, words[3 * at + 1], v);
    }
    Err(Refusal::Broken)
}
