// The two levels of a table, and the sizes of its cell arrays.
ghost use Rattle.std.specs.Prelude.{◌≡◌};
ghost use Rattle.bits.specs.Tab.{Tells};
ghost use Rattle.sail.specs.Geometry.{standard_geo, small_geo, bits2, bits3, Valid, Power};

// A first cell is a cell of level p1, a second cell one of level p2. A third cell is one address.
#[derive(Clone, Copy, Debug, PartialEq, Eq)]
pub struct Geometry {
    pub p1: u32,
    pub p2: u32,
}

impl Geometry {
    pub const STANDARD: Geometry = Geometry { p1: 16, p2: 24 };

    pub const SMALL: Geometry = Geometry { p1: 12, p2: 22 };

    // The two constants are the geometries that the definitions call standard and small.
    pub fn standard() -> Geometry
        ensures { result ≡ standard_geo }
    {
        Geometry::STANDARD
    }

    pub fn small() -> Geometry
        ensures { result ≡ small_geo }
    {
        Geometry::SMALL
    }

    // Whether the levels are within the limits.
    pub fn valid(self) -> bool
        ensures { Tells result (Valid self) }
    {
        let p1 = self.p1;
        let p2 = self.p2;
        if p1 < 12 {
            return false;
        }
        if 16 < p1 {
            return false;
        }
        if p2 < 22 {
            return false;
        }
        if 26 < p2 {
            return false;
        }
        p2 - p1 <= 10
    }

    // How many first cells there are.
    pub fn first_cells(self) -> usize
        requires { Valid self }
        ensures { Power result self.p1 65536 }
    {
        1usize << self.p1
    }

    // How many cells a second chunk has.
    pub fn second_chunk(self) -> usize
        requires { Valid self }
        ensures { Power result (bits2 self) 1024 }
    {
        1usize << (self.p2 - self.p1)
    }

    // How many cells a third chunk has.
    pub fn third_chunk(self) -> usize
        requires { Valid self }
        ensures { Power result (bits3 self) 1024 }
    {
        1usize << (32 - self.p2)
    }
}
