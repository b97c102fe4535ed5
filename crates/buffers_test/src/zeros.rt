// Whether a range of an array is zero. There is no early end, so that it can be done many numbers at a time.
ghost use Rattle.std.specs.Prelude.{length};
ghost use Rattle.bits.specs.Tab.{Tells};
ghost use Rattle.buffers.specs.Fill.{Range};
ghost use Rattle.buffers_test.specs.Zeros.{AllZero};

use bits::number::Number;

// Whether every number from `from` up to `to` is 0.
pub fn zeros<T: Number>(numbers: &[T], from: usize, to: usize) -> bool
    requires { Range from to (length numbers.now) }
    ensures { Tells result (AllZero T.ZERO numbers.now from to) }
{
    let mut all = true;
    for j in from..to {
        if numbers[j] != T::ZERO {
            all = false;
        }
    }
    all
}
