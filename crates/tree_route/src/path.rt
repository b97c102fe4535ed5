// The way down the path of a prefix in an image.
ghost use Rattle.std.specs.Prelude.{◌≡◌, ◌&&◌, ◌+◌, ◌*◌, ◌/◌, ◌%◌, ◌≤◌, ◌<◌, true, false, eqb, length, IfOk, IfErr};
ghost use Rattle.bits.specs.Slot.{slot};
ghost use Rattle.tree_image.specs.Node.{bits_of, is_set};
ghost use Rattle.tree_same.specs.Order.{Order};
ghost use Rattle.tree_theory.specs.Stages.{Descent, BitOf, PathEnds};

use tree_node::run;

// A node of the path, and its depth.
#[derive(Clone, Copy)]
pub struct Reached {
    pub at: usize,
    pub depth: u32,
}

// The four bits of the path that lead from depth m to the next.
pub fn turn(addr: u32, m: u32) -> u32
    requires { m < 8 }
    ensures { (result ≡ slot (4 * (m + 1)) addr % 16) × (result < 16) }
{
    bits::slot(4 * (m + 1), addr) % 16
}

// The way down, to depth `deep` at most: the last node met.
pub fn descend(words: &[u32], n: usize, addr: u32, deep: u32) -> Reached
    requires { Order words.now n × (deep ≤ 8) }
    ensures { Descent words.now n addr deep result.at result.depth }
{
    let mut at: usize = 0;
    for depth in 0..deep {
        let c = turn(addr, depth);
        if !bits::is_set(words[3 * at], 16 + c) {
            return Reached { at, depth };
        }
        at = tree_places::child_place(words, at, c);
    }
    Reached { at, depth: deep }
}

// The internal bit of a prefix in its node, which is at depth len / 4.
fn own_bit(addr: u32, len: u32) -> u32
    requires { len ≤ 32 }
    ensures { BitOf addr len result }
{
    run::node_bit(addr, len, len / 4)
}

// Whether the way down reached the depth of the prefix, and its bit is set there.
fn is_there(words: &[u32], r: Reached, deep: u32, b: u32) -> bool
    requires { (3 * r.at < length words.now) × (b < 15) }
    ensures { result ≡ (eqb r.depth deep && is_set (bits_of words.now r.at) b) }
{
    r.depth == deep && bits::is_set(words[3 * r.at], b)
}

// Where a prefix stands: at an internal bit of a node.
#[derive(Clone, Copy)]
pub struct Spot {
    pub at: usize,
    pub bit: u32,
}

// Where the path of a prefix that does not stand ends: the last node met with its depth, and the bit of the prefix in its own node.
#[derive(Clone, Copy)]
pub struct Gap {
    pub at: usize,
    pub depth: u32,
    pub bit: u32,
}

// The way down to the node of a prefix: where it stands, or what is missing.
pub fn seek(words: &[u32], n: usize, addr: u32, len: u32) -> Result<Spot, Gap>
    requires { Order words.now n × (len ≤ 32) }
    ensures stands { IfOk result (λ s. PathEnds words.now n addr len s.at (len / 4) s.bit true) }
    ensures lacks { IfErr result (λ g. PathEnds words.now n addr len g.at g.depth g.bit false) }
{
    let bit = own_bit(addr, len);
    let last = descend(words, n, addr, len / 4);
    if is_there(words, last, len / 4, bit) {
        return Ok(Spot { at: last.at, bit });
    }
    Err(Gap {
        at: last.at,
        depth: last.depth,
        bit,
    })
}
