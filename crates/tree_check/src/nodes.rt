// The nodes of an image from the root down: the test of a node calls the test of its child array, and that calls the test of a node. Once the bases are
// those of the fixed order no two child arrays share a node, so the way down meets each node once, whatever the arrays hold.
// Stays: document 01 names this form, a node's test that calls its child array's test and back; so it is no loop over the children.
ghost use Rattle.std.specs.Prelude.{◌≡◌, ◌≤◌};
ghost use Rattle.tree_formed.specs.Bases.{Siblings};
ghost use Rattle.tree_formed.specs.WellFormed.{node_ok, children_ok, root_ok};

use tree_bases::{children, first_child};

// A node is well formed when its own bitmaps are and its child array is: bit 15 is zero, some bit is set, and at depth 8 bit 0 alone.
#[cycle(children_ok_node_ok)]
pub fn node_ok(words: &[u32], at: usize, left: u32) -> bool
    requires { Siblings words.now at 1 left }
    ensures { result ≡ node_ok left words.now at }
{
    let word = words[3 * at];
    if bits::is_set(word, 15) {
        return false;
    }
    if left == 0 {
        return word == 1;
    }
    if word == 0 {
        return false;
    }
    let first = first_child(words, at);
    children_ok(words, first, children(word) as usize, left - 1)
}

// A child array is well formed when each of its nodes is: the first one, and the others.
#[cycle(children_ok_node_ok)]
pub fn children_ok(words: &[u32], first: usize, n: usize, left: u32) -> bool
    requires { Siblings words.now first n left × (n ≤ 16) }
    ensures { result ≡ children_ok left n words.now first }
{
    if n == 0 {
        return true;
    }
    node_ok(words, first, left) && children_ok(words, first + 1, n - 1, left)
}

// The root may be bare.
pub fn root_ok(words: &[u32]) -> bool
    requires { Siblings words.now 0 1 8 }
    ensures { result ≡ root_ok words.now }
{
    words[0] == 0 || node_ok(words, 0, 8)
}
