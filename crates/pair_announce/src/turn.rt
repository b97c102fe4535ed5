// What an announcement by a party answers.
use pair::Pair;
use sail_announce::answers::Announce;

// A step on the party's side: the number of the refusal, or 0; then, whether the prefix stood; and the state.
#[derive(Clone, Copy)]
pub struct Turn {
    pub number: u8,
    pub stood: bool,
    pub state: Pair,
}

// The call: what it answers, and the state.
#[derive(Clone, Copy)]
pub struct PairAnnounced {
    pub answer: Announce,
    pub state: Pair,
}
