// Lists of numbers as they are printed, a space before each.
use std::fmt;
use std::fmt::Display;

// In decimal: bytes, words, hops.
#[derive(Clone, Copy)]
pub struct Numbers<'a, T>(pub &'a [T]);

impl<T: Display> Display for Numbers<'_, T> {
    fn fmt<W: fmt::Write>(&self, f: &mut fmt::Formatter<W>) -> fmt::Result {
        for n in self.0 {
            write!(f, " {n}")?;
        }
        Ok(())
    }
}

// Bytes in hexadecimal.
#[derive(Clone, Copy)]
pub struct Hex<'a>(pub &'a [u8]);

impl Display for Hex<'_> {
    fn fmt<W: fmt::Write>(&self, f: &mut fmt::Formatter<W>) -> fmt::Result {
        for b in self.0 {
            write!(f, " {b:02x}")?;
        }
        Ok(())
    }
}
