// The first 20 bytes of a packet: judged before the lookup of its destination, and changed after it.
ghost use Rattle.std.specs.Prelude.{cond, ◌≡◌, ◌≤◌, length};
ghost use Rattle.refusals.specs.Numbers.{fault_of};
ghost use Rattle.sail.specs.Word.{hop_in_word};
ghost use Rattle.header.specs.Header.{header_fault, Lowerable, lowered};
ghost use Rattle.header.specs.Step as step;

use crate::halves::{half, mended, sum};
use records::record::{put_half, word_at};
use refusals::Refusal;

// What is wrong with a header, in order: 19 to 22.
pub fn check_header(packet: &[u8]) -> Result<(), Refusal>
    ensures { fault_of result ≡ header_fault packet.now }
{
    if packet.len() < 20 {
        return Err(Refusal::Short);
    }
    if packet[0] != 0x45 {
        return Err(Refusal::Header);
    }
    if sum(packet) != 65535 {
        return Err(Refusal::Checksum);
    }
    if packet[8] < 2 {
        return Err(Refusal::Expired);
    }
    Ok(())
}

// The address to which the packet goes.
pub fn destination(packet: &[u8]) -> u32
    requires { 20 ≤ length packet.now }
    ensures { result ≡ step.destination packet.now }
{
    word_at(packet, 16)
}

// The time to live is lowered by one, and the checksum mended.
fn lower(packet: &mut [u8])
    requires { Lowerable packet.old }
    ensures { packet.new ≡ lowered packet.old }
{
    let sum = mended(half(packet, 5), half(packet, 4));
    packet[8] -= 1;
    put_half(packet, 10, sum as u16);
}

// The packet after a lookup of its destination that answered with the word w: lowered if w has a hop, else as it was.
pub fn finish(w: u64, packet: &mut [u8])
    requires { Lowerable packet.old }
    ensures { packet.new ≡ cond (hop_in_word w) (lowered packet.old) packet.old }
{
    if w % 256 == 0 {
        if 65536 <= w {
            lower(packet);
        }
    }
}
