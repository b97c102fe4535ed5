// The eight arrays that are lent with a table, as one value.
ghost use Rattle.std.specs.Prelude.{◌≡◌};
ghost use Rattle.sail.specs.Arrays.{lent_by, held_by};

// Lent to be read: the list of records, the cells of three levels, the owners of the two pools' chunks, and the counts of long routes at
// first and at second cells.
#[derive(Clone, Copy)]
pub struct Arrays<'a> {
    pub list: &'a [u8],
    pub first: &'a [u16],
    pub second: &'a [u16],
    pub third: &'a [u16],
    pub own2: &'a [u32],
    pub own3: &'a [u32],
    pub long1: &'a [u16],
    pub long2: &'a [u16],
}

// The same lent to be changed.
#[derive(Drop)]
pub struct ArraysMut<'a> {
    pub list: &'a mut [u8],
    pub first: &'a mut [u16],
    pub second: &'a mut [u16],
    pub third: &'a mut [u16],
    pub own2: &'a mut [u32],
    pub own3: &'a mut [u32],
    pub long1: &'a mut [u16],
    pub long2: &'a mut [u16],
}

impl ArraysMut<'_> {
    // To be read for a while.
    pub fn read(&self) -> Arrays<'_>
        ensures { lent_by result ≡ held_by self.now }
    {
        Arrays {
            list: self.list,
            first: self.first,
            second: self.second,
            third: self.third,
            own2: self.own2,
            own3: self.own3,
            long1: self.long1,
            long2: self.long2,
        }
    }
}
