// One of the three words of each node of a stretch, changed alike: the child bases or the hop bases, made one more or one less.
ghost use Rattle.std.specs.Prelude.{◌≡◌, ◌+◌, ◌*◌, ◌<◌, ◌≤◌, ℕ, slice_index};
ghost use Rattle.tree_hold.specs.Moves.{each};
ghost use Rattle.tree_places.specs.Bases.{WordsLent, AnswersAs};

// Word d of the nodes from a up to b, each made what f answers of it.
pub fn each<F: Fn(u32) -> u32>(words: &mut [u32], d: usize, a: usize, b: usize, f: F)
    requires lent { WordsLent words.old d a b }
    requires called { (i : ℕ) → a ≤ i → i < b → F.pre f (slice_index words.old (3 * i + d)) }
    ensures { (g : ℕ → ℕ) → AnswersAs (F.post f) g words.old d a b → words.new ≡ each g words.old d a b }
{
    for i in a..b {
        words[3 * i + d] = f(words[3 * i + d]);
    }
}
