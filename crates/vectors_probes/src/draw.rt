// What a long run draws: numbers of a linear congruential generator, and prefixes, hops, marks and addresses made of them.
ghost use Rattle.std.specs.Prelude.{◌<◌};

// A drawn number.
#[derive(Clone, Copy, Default)]
pub struct Draw(pub u64);

#[derive(Clone, Copy)]
pub struct Prefix {
    pub addr: u32,
    pub len: u8,
}

impl Draw {
    // The number after it. All are below 2^32.
    pub fn next(self) -> Draw
        ensures { result.0 < 4294967296 }
    {
        Draw((self.0 % 4294967296 * 1664525 + 1013904223) % 4294967296)
    }

    // The number after n more.
    pub fn after(self, n: u64) -> Draw {
        let mut x = self;
        for _ in 0..n {
            x = x.next();
        }
        x
    }

    // One of the first n numbers. The lower bits are left out: they repeat soon.
    pub fn pick(self, n: u64) -> u64
        requires { 0 < n }
        ensures { result < n }
    {
        (self.0 >> 16) % n
    }

    // An address at most 65,535 past the i-th.
    pub fn near(self, i: u64) -> u32 {
        base(i).wrapping_add(self.pick(65536) as u32)
    }

    // A length and one of the addresses, with the bits after the length as they are. One length in 34 is 33.
    pub fn prefix(self) -> Prefix {
        Prefix {
            addr: base(self.next().pick(8)),
            len: self.pick(34) as u8,
        }
    }

    // A mark: as often 0 as not, and one in eight is 2, which is none.
    pub fn mark(self) -> u8 {
        match self.pick(8) {
            0..=3 => 0,
            4..=6 => 1,
            _ => 2,
        }
    }

    // A hop: 0, 800, 1,600 and so on up to 32,800. The first and the last are none.
    pub fn hop(self) -> u16 {
        self.pick(42) as u16 * 800
    }
}

// The addresses whose prefixes are drawn. Some share their first bits, two are the first and the last of all.
const BASES: [u32; 8] = [
    0x0A01_02C8,
    0x0A01_0205,
    0x0A01_0301,
    0x0A02_0001,
    0x0A10_0202,
    0xC000_0201,
    0xFFFF_FFFF,
    0,
];

// The i-th of them, and so on from the first again.
pub fn base(i: u64) -> u32 {
    BASES[i as usize % 8]
}

// A sum over numbers in their order.
pub fn mix(sum: u64, v: u64) -> u64 {
    (sum % 4294967296 * 31 + v % 4294967296) % 4294967296
}
