// The header step of one party in a box of two: the same judge and the same end, by the party's lookup.
ghost use Rattle.pair.specs.Party.{party_of};
ghost use Rattle.pair.specs.PairLent.{pair_lent};
ghost use Rattle.packets.specs.Contract.{MeetsPairStep};

use header::packet::{check_header, destination, finish};
use pair::Pair;
use pair_lookup::look;

// 19 to 22, then what the party's lookup of the destination answers. A hop lowers the packet's time to live and mends its checksum; all
// else leaves the packet as it was.
pub fn step(
    t: Pair,
    list1: &[u8],
    first1: &[u16],
    long11: &[u16],
    list2: &[u8],
    first2: &[u16],
    long12: &[u16],
    second: &[u16],
    third: &[u16],
    own2: &[u32],
    own3: &[u32],
    long2: &[u16],
    guest: bool,
    packet: &mut [u8],
) -> u64
    ensures { MeetsPairStep (party_of guest) t
        (pair_lent list1.now first1.now long11.now list2.now first2.now long12.now
        second.now third.now own2.now own3.now long2.now) packet.old result
        packet.new }
{
    if let Err(why) = check_header(packet) {
        return u64::from(why.number());
    }
    let addr = destination(packet);
    let w = look(
        t, list1, first1, long11, list2, first2, long12, second, third, own2, own3, long2, guest,
        addr,
    ) as u64;
    finish(w, packet);
    w
}
