// Chunks taken and given back: the owners of a pool, and the cells of a chunk that is closed.
ghost use Rattle.std.specs.Prelude.{◌≡◌, ◌≤◌, length};
ghost use Rattle.sail_theory.specs.Render.{find};
ghost use Rattle.sail_chunks.specs.Chunks.{with_owner, without_owner, blanked, FreeToOpen, Closing};

use buffers::fill::fill_range;
use chain::place::shifted;

// The first chunk whose owner is o, counted from 0; as many as there are where none has it. So 0 gives the lowest free one.
pub fn chunk_named(own: &[u32], o: u32) -> usize
    ensures { (result ≡ find own.now o) × (result ≤ length own.now) }
{
    for c in 0..own.len() {
        if own[c] == o {
            return c;
        }
    }
    own.len()
}

// Chunk c gets the owner o, where it is to be opened.
pub fn set_owner(own: &mut [u32], opens: bool, c: usize, o: u32)
    requires { FreeToOpen opens c own.old }
    ensures { own.new ≡ with_owner opens c o own.old }
{
    if opens {
        own[c] = o;
    }
}

// Chunk c of a pool of chunks of 2^d cells, where it is to be closed: its owner and its cells become 0.
pub fn close(own: &mut [u32], cells: &mut [u16], closes: bool, c: usize, d: u32)
    requires { Closing closes own.old cells.old c d }
    ensures owner { own.new ≡ without_owner closes c own.old }
    ensures blank { cells.new ≡ blanked closes c d cells.old }
{
    if closes {
        own[c] = 0;
        let a = shifted(c as u64, 12, d) as usize;
        let n = shifted(1, 1, d) as usize;
        fill_range(cells, a, a + n, 0);
    }
}
