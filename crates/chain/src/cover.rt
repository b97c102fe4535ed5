// The chain of covering words, and the hop of the longest route that covers a cell.
ghost use Rattle.std.specs.Prelude.{◌≡◌, ◌/◌, ◌%◌, ◌<◌, ◌≤◌, length};
ghost use Rattle.bits.specs.Slot.{slot};
ghost use Rattle.standing.specs.Cells.{covers, best};
ghost use Rattle.chain.specs.Words.{len_of, route_of_word, routes_of_words};
ghost use Rattle.chain.specs.Place.{KeysBelow, InLevel, RunFrom};
ghost use Rattle.chain.specs.Cover.{LastCover, Parents, ParentsBelow, Climb, WordsRoom, ChainReady, entry_of};

use super::place::{place_between, place_on, under_key};
use bits::bytes;

// Whether the route of a word covers cell i of level p.
fn covering(w: u64, p: u32, i: u64) -> bool
    requires { (p ≤ 32) × (len_of w ≤ 32) }
    ensures { result ≡ covers p i (route_of_word w) }
{
    let len = (w / bytes::THREE % bytes::ONE) as u32;
    if p < len {
        return false;
    }
    (w / bytes::FOUR) >> (32 - len) == i >> (p - len)
}

// The place of the last of the words before j that covers cell i of level p. It is j - 1, or stands in that word's chain of
// parents.
pub fn last_cover(ws: &[u64], par: &[u16], j: usize, p: u32, i: u64) -> Option<usize>
    requires { Climb ws.now par.now j p i }
    ensures { LastCover ws.now j p i (entry_of result) }
{
    // Stays: the loop goes from a word to its parent, so its steps are no range, and no iterator yields them.
    let mut m = j;
    while 0 < m {
        let k = m - 1;
        if covering(ws[k], p, i) {
            return Some(k);
        }
        m = usize::from(par[k]);
    }
    None
}

// The entry of a place among fewer than 65,535 words, or of none.
fn entry_of(place: Option<usize>) -> u16
    requires { entry_of place < 65536 }
    ensures { result ≡ entry_of place }
{
    place.map_or(0, |k| k as u16 + 1)
}

// The parent of each word; those of the words before `from` stand there already.
fn parents(ws: &[u64], from: usize, par: &mut [u16])
    requires words_room { WordsRoom ws.now par.old }
    requires parents_below { ParentsBelow ws.now par.old from }
    ensures { Parents ws.now par.new (length ws.now) }
{
    for k in from..ws.len() {
        par[k] = entry_of(last_cover(ws, &par[..k], k, 32, ws[k] / bytes::FOUR));
    }
}

// The heads, after the parents. Each is looked for from the one before on.
fn heads(ws: &[u64], par: &mut [u16])
    requires words_room { WordsRoom ws.now par.old }
    requires parents { Parents ws.now par.old (length ws.now) }
    ensures { ChainReady ws.now par.new }
{
    let mut m = 0;
    for b in 0..257usize {
        m = place_on(ws, m, b as u64 * bytes::FOUR);
        par[4096 + b] = m as u16;
    }
}

// The parents from `from` on, and the heads.
pub fn ready(ws: &[u64], from: usize, par: &mut [u16])
    requires words_room { WordsRoom ws.now par.old }
    requires parents_below { ParentsBelow ws.now par.old from }
    ensures { ChainReady ws.now par.new }
{
    parents(ws, from, par);
    heads(ws, par);
}

// How many words have a smaller key, by halving between two heads.
pub fn place_from(ws: &[u64], par: &[u16], key: u64) -> usize
    requires chain_ready { ChainReady ws.now par.now }
    requires key_bound { key < 1099511627776 }
    ensures { KeysBelow ws.now key result }
{
    let b = 4096 + (key / bytes::FOUR) as usize;
    place_between(ws, usize::from(par[b]), usize::from(par[b + 1]), key)
}

// Where the run under cell i of level p begins.
pub fn run_start(ws: &[u64], par: &[u16], p: u32, i: u64) -> usize
    requires chain_ready { ChainReady ws.now par.now }
    requires in_level { InLevel p i }
    ensures { RunFrom ws.now p i result }
{
    place_from(ws, par, under_key(p, i))
}

// The hop of the longest route of at most p bits that covers cell i; the run under the cell begins at lo.
pub fn inherited(ws: &[u64], par: &[u16], lo: usize, p: u32, i: u64) -> u16
    requires chain_ready { ChainReady ws.now par.now }
    requires run_from { RunFrom ws.now p i lo }
    ensures { (result ≡ best (routes_of_words ws.now) p i) × (result < 32768) }
{
    match last_cover(ws, par, lo, p, i) {
        Some(k) => (ws[k] % bytes::TWO) as u16,
        None => 0,
    }
}

// The same, where nothing is known of the run.
pub fn longest_at(ws: &[u64], par: &[u16], p: u32, i: u64) -> u16
    requires chain_ready { ChainReady ws.now par.now }
    requires in_level { InLevel p i }
    ensures { (result ≡ best (routes_of_words ws.now) p i) × (result < 32768) }
{
    inherited(ws, par, run_start(ws, par, p, i), p, i)
}

// The hop of the longest route of at most p bits that covers an address.
pub fn longest(ws: &[u64], par: &[u16], p: u32, addr: u32) -> u16
    requires chain_ready { ChainReady ws.now par.now }
    requires p_bound { p ≤ 32 }
    ensures { (result ≡ best (routes_of_words ws.now) p (slot p addr)) × (result < 32768) }
{
    longest_at(ws, par, p, (addr as u64) >> (32 - p))
}
