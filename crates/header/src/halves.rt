// Sums of the ten halves of 16 bits that a header has, in ones' complement.
ghost use Rattle.std.specs.Prelude.{◌≡◌, ◌-◌, ◌≤◌, ◌<◌, length};
ghost use Rattle.header.specs.Sums.{half_of, oplus, ones_sum, mended_sum};

use records::record::half_at;

// Half i of a packet.
pub fn half(packet: &[u8], i: usize) -> u32
    requires { (i < 10) × (20 ≤ length packet.now) }
    ensures { (result ≡ half_of packet.now i) × (result < 65536) }
{
    u32::from(half_at(packet, 2 * i))
}

// The sum of two halves in ones' complement: the carry is added at the other end.
fn add(x: u32, y: u32) -> u32
    requires { (x < 65536) × (y < 65536) }
    ensures { (result ≡ oplus x y) × (result < 65536) }
{
    let s = x + y;
    s % 65536 + s / 65536
}

// The sum of a header's ten halves.
pub fn sum(packet: &[u8]) -> u32
    requires { 20 ≤ length packet.now }
    ensures { (result ≡ ones_sum (half_of packet.now) 10) × (result < 65536) }
{
    let mut s = 0;
    for i in 0..10 {
        s = add(s, half(packet, i));
    }
    s
}

// The checksum of a header that had hc, whose half m is lowered by 256, by RFC 1624: ~(~hc + ~m + m').
pub fn mended(hc: u32, m: u32) -> u32
    requires { (hc < 65536) × (m < 65536) × (256 ≤ m) }
    ensures { (result ≡ mended_sum hc m (m - 256)) × (result < 65536) }
{
    65535 - add(add(65535 - hc, 65535 - m), m - 256)
}
