// The calls on tree images.
ghost use Rattle.std.specs.Prelude.{◌≡◌};
ghost use Rattle.tree_image.specs.Walk.{tree_said};
ghost use Rattle.tree_build.specs.Built.{built};
ghost use Rattle.tree_formed.specs.Answers.{tested};
ghost use Rattle.tree_theory.specs.Changed.{image_announced, image_withdrawn};
ghost use Rattle.sail.specs.Word.{pack_found};
ghost use Rattle.packing.specs.Pack.{pack_built};
ghost use Rattle.cards.specs.Cards.{image_card, image_card_of};
ghost use Rattle.cards.specs.Images.{changed_card_of};

use bits::narrow::{narrow8, narrow16};

// The image of the input's routes.
#[unsafe(no_mangle)]
pub extern "C" fn gh_build(input: &[u8], words: &mut [u32], hops: &mut [u16]) -> u64
    ensures { image_card result words.new hops.new ≡ image_card_of (built input.now words.old hops.old) }
{
    packing_images::built(tree_build::build(input, words, hops))
}

// The hop for one address, with the count of nodes read.
#[unsafe(no_mangle)]
pub extern "C" fn gh_tree_lookup(words: &[u32], hops: &[u16], addr: u32) -> u64
    ensures { result ≡ pack_found (tree_said words.now hops.now addr) }
{
    packing_images::tree_found(tree::lookup(words, hops, addr))
}

// The nodes and the hops in use of a well-formed image.
#[unsafe(no_mangle)]
pub extern "C" fn gh_tree_test(words: &[u32], hops: &[u16]) -> u64
    ensures { result ≡ pack_built (tested words.now hops.now) }
{
    packing_images::tested(tree_check::test(words, hops))
}

// A route is added to the image itself, or replaces the hop of its prefix.
#[unsafe(no_mangle)]
pub extern "C" fn gh_tree_announce(
    words: &mut [u32],
    hops: &mut [u16],
    addr: u32,
    len: u32,
    hop: u32,
) -> u64
    ensures { image_card result words.new hops.new
        ≡ changed_card_of (image_announced words.old hops.old addr len hop) }
{
    packing_images::announced(tree_change::announce(words, hops, addr, narrow8(len), narrow16(hop)))
}

// A route is taken out of the image itself.
#[unsafe(no_mangle)]
pub extern "C" fn gh_tree_withdraw(words: &mut [u32], hops: &mut [u16], addr: u32, len: u32) -> u64
    ensures { image_card result words.new hops.new ≡ image_card_of (image_withdrawn words.old hops.old addr len) }
{
    packing_images::withdrawn(tree_change::withdraw(words, hops, addr, narrow8(len)))
}
