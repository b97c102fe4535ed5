// Numbers made narrower, as calls want them that come over the C boundary: there they are 32 bits wide. A number that fits is
// kept. A larger one becomes the largest of the narrow type, which meets the same refusal; it is never cut.
// Stays: two functions. A trait `Narrow` with `fn narrow(x: u32) -> Self` would be an `impl` for each type with this one line in it.
ghost use Rattle.std.specs.Prelude.{◌≡◌, min};

pub fn narrow8(x: u32) -> u8
    ensures { result ≡ min x 255 }
{
    u8::try_from(x).unwrap_or(u8::MAX)
}

pub fn narrow16(x: u32) -> u16
    ensures { result ≡ min x 65535 }
{
    u16::try_from(x).unwrap_or(u16::MAX)
}
