// Numbers moved by some places within their array, up or down, over those that stand there. Callers give the step as a constant, so that the
// compiler puts it in.
#![tactic(auto)]

ghost use Rattle.std.specs.Prelude.{◌≡◌, length};
ghost use Rattle.moves.specs.Moves.{shifted_up, shifted_down, Movable};

use bits::number::Number;

// The numbers from `a` on and before `e` move up by `step`. The last goes first, so that none is lost.
pub fn up<T: Number>(numbers: &mut [T], a: usize, e: usize, step: usize)
    requires { Movable a e step (length numbers.old) }
    ensures { numbers.new ≡ shifted_up T.ZERO numbers.old a e step }
{
    for at in (a..e).rev() {
        numbers[at + step] = numbers[at];
    }
}

// The numbers from `a` on and before `e` become those `step` further on.
pub fn down<T: Number>(numbers: &mut [T], a: usize, e: usize, step: usize)
    requires { Movable a e step (length numbers.old) }
    ensures { numbers.new ≡ shifted_down T.ZERO numbers.old a e step }
{
    for at in a..e {
        numbers[at] = numbers[at + step];
    }
}
