// The nodes of an image one by one: whether their bases are those of the fixed order. Each node is compared with the next one, with no early end, so
// that it can be done several nodes at a time.
#![tactic(auto)]

ghost use Rattle.std.specs.Prelude.{◌≡◌, ◌+◌, ◌*◌, ◌/◌, ◌^◌, ◌<◌, ◌≤◌, length, count_ones};
ghost use Rattle.bits.specs.Tab.{Tells};
ghost use Rattle.tree_image.specs.Node.{bits_of, child_of};
ghost use Rattle.tree_same.specs.Order.{Order};
ghost use Rattle.tree_formed.specs.Bases.{EndsAt, Nodes, Begun, NodesUpTo, NodesShaped};

// How many children the word of a node names.
pub fn children(word: u32) -> u32
    ensures { (result ≡ count_ones (word / 2 ^ 16)) × (result ≤ 16) }
{
    (word >> 16).count_ones()
}

// Where the children of a node begin, by its child base.
pub fn first_child(words: &[u32], at: usize) -> usize
    requires { 3 * (at + 1) ≤ length words.now }
    ensures { (result ≡ child_of words.now at) × (result < 2 ^ 32) }
{
    words[3 * at + 1] as usize
}

// Where they end.
pub fn after_children(words: &[u32], at: usize) -> usize
    requires { 3 * (at + 1) ≤ length words.now }
    ensures { result ≡ child_of words.now at + count_ones (bits_of words.now at / 2 ^ 16) }
{
    first_child(words, at) + children(words[3 * at]) as usize
}

// The nodes in use, if the image is well formed: the way from the root to the first child of each level ends after the last node.
fn nodes_in(words: &[u32]) -> usize
    ensures { EndsAt words.now result }
{
    let lent = words.len() / 3;
    let mut at: usize = 0;
    // Stays: the next node is named by the words, so there is no range for a `for` to go over.
    while at < lent {
        let next = first_child(words, at);
        if next <= at {
            return at;
        }
        at = next;
    }
    at
}

// Whether the bases of the m nodes after the root are right: each base is that of the node before and that node's own ones.
fn follow(words: &[u32], m: usize) -> bool
    requires { Begun words.now m }
    ensures { Tells result (NodesUpTo words.now m) }
{
    let mut right = true;
    for i in 0..m {
        let at = 3 * i;
        let word = words[at];
        let child = words[at + 1].wrapping_add(children(word));
        let hop = words[at + 2].wrapping_add(bits::ones_below(word, 15));
        right &= (words[at + 4] == child) & (words[at + 5] == hop);
    }
    right
}

// Whether the first n nodes are in the fixed order, and have all their children among them.
fn in_order(words: &[u32], n: usize) -> bool
    requires { Nodes words.now n }
    ensures { Tells result (Order words.now n) }
{
    if words[1] != 1 {
        return false;
    }
    if words[2] != 0 {
        return false;
    }
    let last = n - 1;
    if !follow(words, last) {
        return false;
    }
    after_children(words, last) == n
}

// The nodes in use, if the bases of each are right; none if not, and none for what is no image for another reason: no image has more than 32,769 nodes.
pub fn shape(words: &[u32]) -> Option<usize>
    ensures { NodesShaped words.now result }
{
    let n = nodes_in(words);
    if n == 0 {
        return None;
    }
    if n > words.len() / 3 {
        return None;
    }
    if n > 32769 {
        return None;
    }
    if !in_order(words, n) {
        return None;
    }
    Some(n)
}
