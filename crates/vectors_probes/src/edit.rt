// Numbers of an array, from a place up to another, made one value. What is past the end is left out.

// Which of the eight arrays of a table.
#[derive(Clone, Copy)]
pub enum Array {
    List,
    First,
    Second,
    Third,
    Own2,
    Own3,
    Long1,
    Long2,
}

// The arrays in the order in which they are lent.
const ARRAYS: [Array; 8] = [
    Array::List,
    Array::First,
    Array::Second,
    Array::Third,
    Array::Own2,
    Array::Own3,
    Array::Long1,
    Array::Long2,
];

impl Array {
    // The array of this number, from 0.
    pub fn of(number: u32) -> Option<Array> {
        ARRAYS.get(number as usize).copied()
    }
}

// In which array, from which place, up to which, and the value.
#[derive(Clone, Copy)]
pub struct Edit {
    pub array: Array,
    pub from: usize,
    pub to: usize,
    pub value: u32,
}

// A number's last byte, and its last two.
pub fn byte(v: u32) -> u8 {
    (v % 256) as u8
}

pub fn half(v: u32) -> u16 {
    (v % 65536) as u16
}

impl Edit {
    fn fill<T: Copy>(self, out: &mut [T], value: T) {
        let end = self.to.min(out.len());
        if let Some(part) = out.get_mut(self.from..end) {
            for place in part {
                *place = value;
            }
        }
    }

    // The edit in the array that it names.
    pub fn put(
        self,
        list: &mut [u8],
        first: &mut [u16],
        second: &mut [u16],
        third: &mut [u16],
        own2: &mut [u32],
        own3: &mut [u32],
        long1: &mut [u16],
        long2: &mut [u16],
    ) {
        match self.array {
            Array::List => self.fill(list, byte(self.value)),
            Array::First => self.fill(first, half(self.value)),
            Array::Second => self.fill(second, half(self.value)),
            Array::Third => self.fill(third, half(self.value)),
            Array::Own2 => self.fill(own2, self.value),
            Array::Own3 => self.fill(own3, self.value),
            Array::Long1 => self.fill(long1, half(self.value)),
            Array::Long2 => self.fill(long2, half(self.value)),
        }
    }
}
