// Masks of lengths, in hexadecimal.
use std::io;

// Lengths 0, 1, 24, 31 and 32: none, the top one, three bytes, all but the last, all.
pub fn run(rt: &impl Print) -> io::Result<()> {
    print!(rt; "masks")?;
    for len in [0, 1, 24, 31, 32] {
        let mask = bits::mask(len);
        print!(rt; " {mask:08x}")?;
    }
    println!(rt; "")
}
