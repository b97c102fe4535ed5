// A tally written into words.
ghost use Rattle.std.specs.Prelude.{◌≡◌};
ghost use Rattle.sail_words.specs.Lookups.{words_card};
ghost use Rattle.packing_inputs.specs.Tallies.{tally_card};

use crate::input;

// The number of routes of each length, into 33 words; 2 where there are not 33.
pub fn tally_words(bytes: &[u8], out: &mut [u32]) -> u64
    ensures { words_card result out.new ≡ tally_card bytes.now out.old }
{
    if out.len() != 33 {
        return 2;
    }
    let t = runs::tally::tally(bytes);
    out.copy_from_slice(&t.counts);
    input(t.answer)
}
