// Why a call is refused: document 01's numbers and those of document 02, each by its name.
#![tactic(auto)]

ghost use Rattle.std.specs.Prelude.{◌≡◌, Some, None};
ghost use Rattle.refusals.specs.Numbers.{number_of};

use std::fmt;

// One line for each number. 16 is nobody's.
#[derive(Clone, Copy, Debug, PartialEq, Eq)]
pub enum Refusal {
    // 1: a geometry outside the limits.
    Geometry = 1,
    // 2: a lent array has another size than the geometry asks for, or too much room.
    Size = 2,
    // 3: a length over 32, or a bit set after it.
    Prefix = 3,
    // 4: a hop that is not 1 to 32,767.
    Hop = 4,
    // 5: a table that is not sound; in a lookup, a walk that breaks off.
    Unsound = 5,
    // 6: no room for a record, or more than 4,096.
    Room = 6,
    // 7: the need for second chunks exceeds those lent.
    SecondChunks = 7,
    // 8: the need for third chunks exceeds those lent.
    ThirdChunks = 8,
    // 9: the withdrawn prefix does not stand.
    Absent = 9,
    // 10: no whole records, a mark over 1, or not ascending.
    Record = 10,
    // 11: too few whole nodes.
    Nodes = 11,
    // 12: too few hops.
    Hops = 12,
    // 13: an image that is broken, or a bit map's hop that is none.
    Broken = 13,
    // 14: the hop has no record.
    NoRecord = 14,
    // 15: the hop's record is down.
    Down = 15,
    // 17: a route field that is none.
    Field = 17,
    // 18: no room for the field that is written.
    FieldRoom = 18,
    // 19: a packet of less than 20 bytes.
    Short = 19,
    // 20: no IPv4 header of 20 bytes.
    Header = 20,
    // 21: a checksum that is wrong.
    Checksum = 21,
    // 22: a time to live that ends.
    Expired = 22,
    // 23: no version of the broadcast rule.
    Version = 23,
    // 24: limits of two parties that exceed the pools.
    Limits = 24,
}

impl Refusal {
    pub fn number(self) -> u8
        ensures { result ≡ number_of self }
    {
        self as u8
    }

    // With the index of the record that is at fault.
    pub fn at(self, index: usize) -> Refused
        ensures { result ≡ record { why = self; at = Some index } }
    {
        Refused {
            why: self,
            at: Some(index),
        }
    }
}

// A refusal of a call that reads records: with an index where it is one record's.
#[derive(Clone, Copy, Debug, PartialEq, Eq)]
pub struct Refused {
    pub why: Refusal,
    pub at: Option<usize>,
}

// One of the whole.
impl From<Refusal> for Refused {
    ghost from_gives = { λ e r. r ≡ record { why = e; at = None } };

    fn from(why: Refusal) -> Refused {
        Refused { why, at: None }
    }
}

// As document 01 prints it: `refused 7`.
impl fmt::Display for Refusal {
    fn fmt<W: fmt::Write>(&self, f: &mut fmt::Formatter<W>) -> fmt::Result {
        let number = self.number();
        write!(f, "refused {number}")
    }
}

// `refused 10 at 3`.
impl fmt::Display for Refused {
    fn fmt<W: fmt::Write>(&self, f: &mut fmt::Formatter<W>) -> fmt::Result {
        let why = self.why;
        match self.at {
            Some(index) => write!(f, "{why} at {index}"),
            None => write!(f, "{why}"),
        }
    }
}
