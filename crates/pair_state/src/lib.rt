// A party's part of the state of a box. `guest` tells whether the party is the second.
#![tactic(auto)]

ghost use Rattle.std.specs.Prelude.{◌≡◌};
ghost use Rattle.pair.specs.Party.{party_of};
ghost use Rattle.pair.specs.PairSound.{table_for};
ghost use Rattle.pair.specs.PairCalls.{with_count};

use pair::{Pair, Share};
use sail::table::Table;

// The state of the party's own table.
pub fn table_for(t: Pair, guest: bool) -> Table
    ensures { result ≡ table_for (party_of guest) t }
{
    let geometry = t.geometry;
    let one = t.one;
    let two = t.two;
    if guest {
        return Table {
            geometry,
            count: two.count,
        };
    }
    Table {
        geometry,
        count: one.count,
    }
}

// The state with n routes of the party.
pub fn with_count(t: Pair, guest: bool, n: u32) -> Pair
    ensures { result ≡ with_count (party_of guest) n t }
{
    let geometry = t.geometry;
    let one = t.one;
    let two = t.two;
    if guest {
        let new = Share {
            count: n,
            most2: two.most2,
            most3: two.most3,
        };
        return Pair {
            geometry,
            one,
            two: new,
        };
    }
    let new = Share {
        count: n,
        most2: one.most2,
        most3: one.most3,
    };
    Pair {
        geometry,
        one: new,
        two,
    }
}
