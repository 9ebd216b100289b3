//! Bytes as hexadecimal digits.

ghost use Rattle.std.specs.Prelude.{Some};
ghost use Rattle.tws_file.specs.Words.{hex};

use std::fmt;

/// Displays bytes in order, each as two lower-case hexadecimal digits.
#[derive(Clone, Copy, Debug)]
pub struct Hex<'a>(pub &'a [u8]);

impl fmt::Display for Hex<'_> {
    ghost output = { λ h. Some (hex h.0.now) };

    fn fmt<W: fmt::Write>(&self, f: &mut fmt::Formatter<W>) -> fmt::Result {
        for &byte in self.0 {
            write!(f, "{byte:02x}")?;
        }
        Ok(())
    }
}
