// A refusal by its number. A call's answer holds one of `refusals`; an answer that was kept or sent as numbers may hold any number, and
// whatever packs or prints an answer takes both.
#![tactic(auto)]

ghost use Rattle.std.specs.Prelude.{◌≡◌};
ghost use Rattle.refusals.specs.declared.Refusal.{Refusal};
ghost use Rattle.numbered.specs.declared.ByNumber.{ByNumber};
ghost use Rattle.numbered.specs.Numbers.{number_alone, number_and_index};

use refusals::{Refusal, Refused};
use std::fmt;

// Any number, and the index of a record if it has one.
#[derive(Clone, Copy, Debug, PartialEq, Eq)]
pub struct ByNumber {
    pub number: u8,
    pub at: Option<usize>,
}

// As document 01 prints it: `refused 7`, or `refused 10 at 3`.
impl fmt::Display for ByNumber {
    fn fmt<W: fmt::Write>(&self, f: &mut fmt::Formatter<W>) -> fmt::Result {
        let number = self.number;
        match self.at {
            Some(index) => write!(f, "refused {number} at {index}"),
            None => write!(f, "refused {number}"),
        }
    }
}

// One of the whole.
impl From<Refusal> for ByNumber {
    ghost from_gives = { λ why e. e ≡ number_alone why };

    fn from(why: Refusal) -> ByNumber {
        ByNumber {
            number: why.number(),
            at: None,
        }
    }
}

// A refusal that has a number, and may have an index.
pub trait Numbered: Copy + From<Refusal> {
    ghost by_number: { Self → ByNumber };

    fn by_number(self) -> ByNumber
        ensures { result ≡ by_number self };

    // What is made of one of `refusals` has its number and no index.
    ghost made_alone: { (why : Refusal) (e : Self) → Self.from_gives why e → by_number e ≡ number_alone why };
}

impl Numbered for Refusal {
    ghost by_number = { number_alone };

    ghost made_alone = { λ why e h i. number_alone (h i) };

    fn by_number(self) -> ByNumber {
        ByNumber::from(self)
    }
}

impl Numbered for Refused {
    ghost by_number = { number_and_index };

    ghost made_alone = { λ why e h i. number_and_index (h i) };

    fn by_number(self) -> ByNumber {
        ByNumber {
            number: self.why.number(),
            at: self.at,
        }
    }
}

// Any number is its own, and so is any index.
impl Numbered for ByNumber {
    ghost by_number = { λ e. e };

    ghost made_alone = { λ why e h. h };

    fn by_number(self) -> ByNumber
        ensures { result ≡ self }
    {
        self
    }
}
