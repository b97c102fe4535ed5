// What every call checks first: the record input, then the sizes of the two arrays.
ghost use Rattle.std.specs.Prelude.{◌≡◌};
ghost use Rattle.basic.specs.Calls.{map_sizes_fit, ready_said, means_ready};

use input_check::input::check_input;
use refusals::{Refusal, Refused};

// Whether the arrays have 16,384 bytes and 131,071 cells.
#[tactic(auto, unfolding(crate::specs::Calls::map_sizes_fit))]
fn sizes(bits: usize, cells: usize) -> bool
    ensures { result ≡ map_sizes_fit bits cells }
{
    bits == 16384 && cells == 131071
}

// So many good records; or the input's refusals, then 2.
pub fn check(input: &[u8], bits: usize, cells: usize) -> Result<usize, Refused>
    ensures { means_ready result ≡ ready_said input.now bits cells }
{
    let n = check_input(input)?;
    if !sizes(bits, cells) {
        return Err(Refusal::Size.into());
    }
    Ok(n)
}
