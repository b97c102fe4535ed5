// What an edit of an image in place rests on: the places of a child and of a hop, a bit cleared, and bases raised and lowered.
#![tactic(auto)]

pub mod bases;

ghost use Rattle.std.specs.Prelude.{◌≡◌, true, ◌+◌, ◌*◌, ◌^◌, ◌≤◌, ◌<◌, length};
ghost use Rattle.tree_image.specs.Node.{bits_of, child_of, is_set, child_at};
ghost use Rattle.tree_same.specs.Read.{hop_place_at};
ghost use Rattle.tree_places.specs.Bases.{WithoutBit};

// A word with a bit cleared that is set.
pub fn without_bit(word: u32, b: u32) -> u32
    requires { (b < 32) × (is_set word b ≡ true) }
    ensures { WithoutBit result b word }
{
    word ^ (1 << b)
}

// The place of the child c of node x: the child base and the extending ones below its bit.
pub fn child_place(words: &[u32], x: usize, c: u32) -> usize
    requires { (3 * x + 3 ≤ length words.now) × (c < 16) }
    ensures { (result ≡ child_at (bits_of words.now x) (child_of words.now x) c) × (result < 2 ^ 33) }
{
    words[3 * x + 1] as usize + bits::ones_below(words[3 * x] >> 16, c) as usize
}

// The place of the hop at the internal bit b of node x: the hop base and the internal ones below the bit.
pub fn hop_place(words: &[u32], x: usize, b: u32) -> usize
    requires { (3 * x + 3 ≤ length words.now) × (b < 15) }
    ensures { (result ≡ hop_place_at words.now x b) × (result < 2 ^ 33) }
{
    words[3 * x + 2] as usize + bits::ones_below(words[3 * x], b) as usize
}
