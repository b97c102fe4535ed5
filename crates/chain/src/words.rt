// Records of eight bytes, read into words of 64 bits.
ghost use Rattle.std.specs.Prelude.{◌≡◌, ◌+◌, ◌*◌, ◌<◌, ◌≤◌, length};
ghost use Rattle.routes.specs.Record.{word32};
ghost use Rattle.chain.specs.Words.{word_at, words_of, WordsBelow};

use bits::bytes;

// Four bytes as a number, the first the highest.
fn four(list: &[u8], at: usize) -> u64
    requires { at + 4 ≤ length list.now }
    ensures { (result ≡ word32 list.now at) × (result < 4294967296) }
{
    ((u64::from(list[at]) * bytes::ONE + u64::from(list[at + 1])) * bytes::ONE
        + u64::from(list[at + 2]))
        * bytes::ONE
        + u64::from(list[at + 3])
}

// Record k as a word.
fn read_word(list: &[u8], k: usize) -> u64
    requires { k * 8 + 8 ≤ length list.now }
    ensures { result ≡ word_at list.now k }
{
    let at = k * 8;
    ((four(list, at) * bytes::ONE + u64::from(list[at + 4])) * bytes::ONE + u64::from(list[at + 5]))
        * bytes::TWO
        + (u64::from(list[at + 6]) * bytes::ONE + u64::from(list[at + 6 + 1]))
}

// As many records as out has room for, as words; those before `from` stand there already.
pub fn decode(list: &[u8], from: usize, out: &mut [u64])
    requires { WordsBelow list.now from out.old }
    ensures { out.new ≡ words_of list.now (length out.old) }
{
    for k in from..out.len() {
        out[k] = read_word(list, k);
    }
}
