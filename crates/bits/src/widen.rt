// A number as one of a wider type. A plain cast keeps the number too; what these add is how large it can be, so that
// what is then reckoned with it fits by that alone.
ghost use Rattle.std.specs.Prelude.{◌≡◌, ◌<◌};

pub fn byte_to_half(x: u8) -> u16
    ensures { (result ≡ x) × (result < 256) }
{
    x as u16
}

pub fn byte_to_word(x: u8) -> u32
    ensures { (result ≡ x) × (result < 256) }
{
    x as u32
}

pub fn byte_to_long(x: u8) -> u64
    ensures { (result ≡ x) × (result < 256) }
{
    x as u64
}

pub fn half_to_word(x: u16) -> u32
    ensures { (result ≡ x) × (result < 65536) }
{
    x as u32
}

pub fn half_to_long(x: u16) -> u64
    ensures { (result ≡ x) × (result < 65536) }
{
    x as u64
}

pub fn half_to_index(x: u16) -> usize
    ensures { (result ≡ x) × (result < 65536) }
{
    x as usize
}

pub fn word_to_long(x: u32) -> u64
    ensures { (result ≡ x) × (result < 4294967296) }
{
    x as u64
}

pub fn word_to_index(x: u32) -> usize
    ensures { (result ≡ x) × (result < 4294967296) }
{
    x as usize
}
