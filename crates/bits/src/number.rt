// Unsigned numbers of 8, 16 and 32 bits, for code that is the same for all three.
ghost use Rattle.std.specs.Prelude.{◌≡◌};
ghost use Rattle.bits.specs.Number.{EqualIsSame, numbers-equal};

// A number that has a zero, and whose `==` tells whether two are the same.
pub trait Number: Copy + PartialEq {
    ghost ZERO: { Self };

    const ZERO: Self;

    ghost equal: { EqualIsSame Self.eq };
}

impl Number for u8 {
    ghost ZERO = { 0 };

    const ZERO: u8 = 0;

    ghost equal = { numbers-equal };
}

impl Number for u16 {
    ghost ZERO = { 0 };

    const ZERO: u16 = 0;

    ghost equal = { numbers-equal };
}

impl Number for u32 {
    ghost ZERO = { 0 };

    const ZERO: u32 = 0;

    ghost equal = { numbers-equal };
}
