// Packets on a table, one after the other.
use packets::step;
use sail::arrays::Arrays;
use sail::table::Table;
use std::io;
use vectors_shared::shown::Hex;

// One step of each packet, all of N bytes, and what it gives.
pub fn all<const N: usize>(
    rt: &impl Print,
    packets: &[[u8; N]],
    t: Table,
    a: Arrays,
) -> io::Result<()> {
    for row in packets {
        let mut packet = *row;
        let word = step(t, a, &mut packet);
        println!(rt; "{word:08x}{}", Hex(&packet))?;
    }
    Ok(())
}
