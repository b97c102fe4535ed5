// What a router does with a packet, over a table. The header step: the header is judged, its destination looked up, and with a hop
// the header is lowered.
#![tactic(auto)]

pub mod pairs;

ghost use Rattle.sail.specs.Arrays.{lent_by};
ghost use Rattle.packets.specs.Contract.{MeetsStep};

use header::packet::{check_header, destination, finish};
use sail::arrays::Arrays;
use sail::table::Table;
use sail_words::look_quick;

// 19 to 22, then what the lookup of the destination answers. A hop lowers the packet's time to live and mends its checksum; all else
// leaves the packet as it was.
pub fn step(t: Table, a: Arrays, packet: &mut [u8]) -> u64
    ensures { MeetsStep t (lent_by a.entry) packet.old result packet.new }
{
    if let Err(why) = check_header(packet) {
        return u64::from(why.number());
    }
    let w = look_quick(t, a, destination(packet));
    finish(w, packet);
    w
}
