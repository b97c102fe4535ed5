// Whether two arrays are the same. There is no early end past the lengths, so that it can be done many numbers at a time.
ghost use Rattle.std.specs.Prelude.{◌≡◌};
ghost use Rattle.bits.specs.Tab.{Tells};

use bits::number::Number;

// Whether two lists of numbers are the same.
pub fn same<T: Number>(numbers: &[T], others: &[T]) -> bool
    ensures { Tells result (numbers.now ≡ others.now) }
{
    if numbers.len() != others.len() {
        return false;
    }
    let mut same = true;
    for j in 0..numbers.len() {
        if numbers[j] != others[j] {
            same = false;
        }
    }
    same
}
