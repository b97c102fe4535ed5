// A place to print that passes over what cannot be written: the lines after it still come, and the program ends as it does elsewhere.
use std::fmt::Display;
use std::io;

#[derive(Drop)]
pub struct Onward<R>(pub R);

impl<R: Print> Print for Onward<R> {
    fn print<D: Display + Drop>(&self, value: D) -> io::Result<()> {
        let _ = self.0.print(value);
        Ok(())
    }

    fn println<D: Display + Drop>(&self, value: D) -> io::Result<()> {
        let _ = self.0.println(value);
        Ok(())
    }

    fn write_all(&self, bytes: &[u8]) -> io::Result<()> {
        let _ = self.0.write_all(bytes);
        Ok(())
    }
}
