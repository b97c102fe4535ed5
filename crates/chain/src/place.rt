// Places among words, by their keys: by halving, and by going on from an earlier place; the end of the run of words under a cell; and the
// least key of a route under it.
ghost use Rattle.std.specs.Prelude.{◌≡◌, ◌+◌, ◌*◌, ◌^◌, ◌<◌, ◌≤◌, length};
ghost use Rattle.chain.specs.Words.{Words};
ghost use Rattle.chain.specs.Place.{KeysBelow, Between, under_key, InLevel, RunFrom, Run};

use bits::bytes;

// How many words have a smaller key, by halving, where that is known to be no less than from and no more than to.
pub fn place_between(ws: &[u64], from: usize, to: usize, key: u64) -> usize
    requires { Between ws.now key from to }
    ensures { KeysBelow ws.now key result }
{
    from + ws[from..to].partition_point(|w| *w / bytes::THREE < key)
}

// How many words have a smaller key.
pub fn place(ws: &[u64], key: u64) -> usize
    requires { Words ws.now }
    ensures { KeysBelow ws.now key result }
{
    place_between(ws, 0, ws.len(), key)
}

// As place, by going on from a place that is no later.
pub fn place_on(ws: &[u64], from: usize, key: u64) -> usize
    requires { Between ws.now key from (length ws.now) }
    ensures { KeysBelow ws.now key result }
{
    for k in from..ws.len() {
        if key <= ws[k] / bytes::THREE {
            return k;
        }
    }
    ws.len()
}

// The end of the run under cell i of level p, which begins at lo.
pub fn run_end(ws: &[u64], lo: usize, p: u32, i: u64) -> usize
    requires words { Words ws.now }
    requires run_from { RunFrom ws.now p i lo }
    ensures { Run ws.now p i lo result }
{
    for k in lo..ws.len() {
        if (ws[k] / bytes::FOUR) >> (32 - p) != i {
            return k;
        }
    }
    ws.len()
}

// A number of j digits, shifted by k.
pub fn shifted(i: u64, j: u32, k: u32) -> u64
    requires { (i < 2 ^ j) × (j + k ≤ 32) }
    ensures { (result ≡ i * 2 ^ k) × (result < 4294967296) }
{
    i << k
}

// The least key of a route under cell i of level p.
pub fn under_key(p: u32, i: u64) -> u64
    requires { InLevel p i }
    ensures { (result ≡ under_key p i) × (result < 1099511627776) }
{
    shifted(i, p, 32 - p) * bytes::ONE + (u64::from(p) + 1)
}
