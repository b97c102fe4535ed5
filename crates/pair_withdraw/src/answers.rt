// What the call answers, and the state beside it.
use pair::Pair;
use sail_withdraw::answers::Withdraw;

// The answer is that of a table of one.
#[derive(Clone, Copy)]
pub struct PairWithdrawn {
    pub answer: Withdraw,
    pub state: Pair,
}
