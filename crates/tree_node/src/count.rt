// The nodes that good records need, counted before anything is written: one pass over the list for each depth.
ghost use Rattle.std.specs.Prelude.{◌≡◌, ◌+◌, ◌*◌, ◌≤◌, length};
ghost use Rattle.bits.specs.Count.{count};
ghost use Rattle.tree_node.specs.Count.{fresh_at, nodes_to};

use crate::run;
use records::record;

// Whether record k passes through a node of depth m that the record before it does not pass through.
fn fresh(list: &[u8], m: u32, k: usize) -> bool
    requires { ((k + 1) * 8 ≤ length list.now) × (m ≤ 8) }
    ensures { result ≡ fresh_at list.now m k }
{
    let r = record::read_record(list, k);
    if u32::from(r.len) < 4 * m {
        return false;
    }
    if k == 0 {
        return true;
    }
    !run::passes(list, k - 1, m, bits::slot(4 * m, r.addr))
}

// The nodes of depth m, 1 or more.
fn count_level(list: &[u8], n: usize, m: u32) -> usize
    requires { (n * 8 ≤ length list.now) × (m ≤ 8) }
    ensures { (result ≡ count (fresh_at list.now m) n) × (result ≤ n) }
{
    let mut nodes: usize = 0;
    for k in 0..n {
        if fresh(list, m, k) {
            nodes += 1;
        }
    }
    nodes
}

// The nodes of all depths.
pub fn count_nodes(list: &[u8], n: usize) -> usize
    requires { (n * 8 ≤ length list.now) × (n ≤ 4096) }
    ensures { (result ≡ nodes_to list.now n 8) × (result ≤ 32769) }
{
    let mut nodes: usize = 1;
    for m in 0..8 {
        nodes += count_level(list, n, m + 1);
    }
    nodes
}
