// The run of a node: the records whose routes pass through it, and the bit of the node at which each lies.
ghost use Rattle.std.specs.Prelude.{◌≡◌, ◌+◌, ◌*◌, ◌≤◌, ◌<◌, length};
ghost use Rattle.routes.specs.Record.{record_at};
ghost use Rattle.tree_image.specs.Image.{through};
ghost use Rattle.tree_node.specs.NodeRuns.{RunEnd, node_bit, WithBit, NodeRun, word_in};

use records::record;

// Whether record k passes through the node of depth m for a path.
pub fn passes(list: &[u8], k: usize, m: u32, path: u32) -> bool
    requires { ((k + 1) * 8 ≤ length list.now) × (m ≤ 8) }
    ensures { result ≡ through m path (record_at list.now k) }
{
    let r = record::read_record(list, k);
    if u32::from(r.len) < 4 * m {
        return false;
    }
    bits::slot(4 * m, r.addr) == path
}

// Where the run of the node of depth m that begins with record a ends: at e, or before.
pub fn run_end(list: &[u8], m: u32, a: usize, e: usize) -> usize
    requires { (a < e) × (e * 8 ≤ length list.now) × (m ≤ 8) }
    ensures { RunEnd list.now m a e result }
{
    let first = record::read_record(list, a);
    let path = bits::slot(4 * m, first.addr);
    for k in a + 1..e {
        if !passes(list, k, m, path) {
            return k;
        }
    }
    e
}

// The bit of a node of depth m at which a route that passes through it lies.
pub fn node_bit(addr: u32, len: u32, m: u32) -> u32
    requires { (4 * m ≤ len) × (len ≤ 32) }
    ensures { (result ≡ node_bit m addr len) × (result < 32) }
{
    if len < 4 * (m + 1) {
        let ones = (1 << (len - 4 * m)) - 1;
        return ones + (bits::slot(len, addr) & ones);
    }
    16 + bits::slot(4 * (m + 1), addr) % 16
}

// A word with one more bit set, or set already.
pub fn with_bit(word: u32, b: u32) -> u32
    requires { b < 32 }
    ensures { WithBit word b result }
{
    word | (1 << b)
}

// The bits of a node: those at which the records of its run lie.
pub fn node_word(list: &[u8], m: u32, a: usize, e: usize) -> u32
    requires { NodeRun list.now m a e }
    ensures { result ≡ word_in list.now m a }
{
    let mut word: u32 = 0;
    for k in a..e {
        let r = record::read_record(list, k);
        word = with_bit(word, node_bit(r.addr, u32::from(r.len), m));
    }
    word
}
