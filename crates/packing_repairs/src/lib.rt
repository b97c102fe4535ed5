// The answer of a repair: a number, and four words beside it.
#![tactic(auto)]

ghost use Rattle.std.specs.Prelude.{[], ◌≡◌, length};
ghost use Rattle.numbered.specs.Numbers.{said_numbered};
ghost use Rattle.repair.specs.Answers.{means_repaired};
ghost use Rattle.packing_repairs.specs.Repairs.{pack_count, told_in, words_said};

use numbered::Numbered;
use refusals::Refusal;
use repair::repair::Repaired;

// What is wrong with the sizes, which were checked, and then with the number of words.
pub fn check_words<E: Numbered>(sizes: Result<(), E>, n: usize) -> Result<(), E>
    ensures { said_numbered E.by_number (λ _. []) result ≡ words_said (said_numbered E.by_number (λ _. []) sizes) n }
{
    sizes?;
    if n != 4 {
        return Err(E::from(Refusal::Size));
    }
    Ok(())
}

pub fn repaired(a: Repaired, count: u32) -> u64
    ensures { result ≡ pack_count count (means_repaired a) }
{
    match a {
        Repaired::Done {
            dropped: _,
            first: _,
            second: _,
            third: _,
        } => u64::from(count) * 65536,
        Repaired::Refused(z) => u64::from(z),
    }
}

// The four numbers of a repair that was accepted, into as many words. A refusal writes none.
pub fn tell(a: Repaired, out: &mut [u32])
    requires { length out.old ≡ 4 }
    ensures { out.new ≡ told_in (means_repaired a) out.old }
{
    let Repaired::Done {
        dropped,
        first,
        second,
        third,
    } = a
    else {
        return;
    };
    out[0] = dropped;
    out[1] = first;
    out[2] = second;
    out[3] = third;
}
