// The text of a list with an attached route, as the printing program has it.
use crate::samples;
use std::io;
use std::io::Write;

// List A's needs in the small geometry are 1 and 1.
pub fn attached(rt: &impl Print) -> io::Result<()> {
    let mut out = [0u8; 256];
    let n = text::line::table_text(&samples::attached_a(), 5, 1, 1, &mut out);
    io::writer(rt).write_all(&out[..n])
}
