// What a lookup takes from one node of an image: its longest match, the place of that match's hop, the child that is next; and at last the hop itself.
#![tactic(auto)]

ghost use Rattle.std.specs.Prelude.{◌≡◌, ◌≤◌, ◌<◌, None, IfSome};
ghost use Rattle.tree_image.specs.Node.{nibble_of, try_bit, deepest_of, better_of, child_at};
ghost use Rattle.routes.specs.Answers.{means_found};
ghost use Rattle.tree_image.specs.Walk.{fetched_from};

use refusals::Refusal;
use routes::found::Found;
use routes::input::hop_ok;

// The four bits of an address that have 4 * d bits below them.
pub fn nibble(addr: u32, d: u32) -> u32
    requires { d < 8 }
    ensures { (result ≡ nibble_of addr d) × (result < 16) }
{
    (addr >> (4 * d)) % 16
}

// The internal bit of inner length 0, if it is set.
pub fn own_bit(word: u32) -> Option<u32>
    ensures is { result ≡ try_bit word 0 None }
    ensures internal { IfSome result (λ b. b < 15) }
{
    if bits::is_set(word, 0) {
        return Some(0);
    }
    None
}

// The internal bit of the longest match of four bits in a node.
pub fn deepest(word: u32, v: u32) -> Option<u32>
    requires { v < 16 }
    ensures is { result ≡ deepest_of word v }
    ensures internal { IfSome result (λ b. b < 15) }
{
    let three = 7 + v / 2;
    if bits::is_set(word, three) {
        return Some(three);
    }
    let two = 3 + v / 4;
    if bits::is_set(word, two) {
        return Some(two);
    }
    let one = 1 + v / 8;
    if bits::is_set(word, one) {
        return Some(one);
    }
    own_bit(word)
}

// The place of the hop at an internal bit, if there is a bit, and otherwise the place found before.
pub fn better(word: u32, base: u32, bit: Option<u32>, best: Option<usize>) -> Option<usize>
    requires { IfSome bit (λ b. b < 15) }
    ensures { result ≡ better_of word base bit best }
{
    match bit {
        Some(b) => Some(base as usize + bits::ones_below(word, b) as usize),
        None => best,
    }
}

// The place of the child at four bits.
pub fn child(word: u32, base: u32, v: u32) -> usize
    requires { v < 16 }
    ensures { result ≡ child_at word base v }
{
    base as usize + bits::ones_below(word >> 16, v) as usize
}

// The one hop that is read, after all nodes. Where it is answered, its fetch counts one more.
pub fn fetch(hops: &[u16], best: Option<usize>, nodes: u32) -> Result<Found, Refusal>
    requires { nodes ≤ 9 }
    ensures { means_found result ≡ fetched_from hops.now nodes best }
{
    let Some(place) = best else {
        return Ok(Found {
            hop: None,
            reads: nodes,
        });
    };
    if place >= hops.len() {
        return Err(Refusal::Broken);
    }
    let hop = hops[place];
    if !hop_ok(hop) {
        return Err(Refusal::Broken);
    }
    Ok(Found {
        hop: Some(hop),
        reads: nodes + 1,
    })
}
