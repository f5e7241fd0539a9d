// Bytes in hexadecimal.
use std::fmt;

// Each byte in at least so many digits, in lower case.
#[derive(Drop)]
pub(crate) struct Hex<'a, const WIDTH: usize>(pub(crate) &'a [u8]);

impl<const WIDTH: usize> fmt::Display for Hex<'_, WIDTH> {
    fn fmt<W: fmt::Write>(&self, f: &mut fmt::Formatter<W>) -> fmt::Result {
        for b in self.0 {
            write!(f, "{b:0WIDTH$x}")?;
        }
        Ok(())
    }
}
