//! A byte as two hexadecimal digits.

ghost use Rattle.std.specs.Prelude.{Some};
ghost use Rattle.tws_file.specs.Words.{hex_byte};

use std::fmt;

/// Displays a byte as two lower-case hexadecimal digits.
#[derive(Clone, Copy)]
pub struct HexByte(pub u8);

impl fmt::Display for HexByte {
    ghost output = { λ b. Some (hex_byte b.0) };

    fn fmt<W: fmt::Write>(&self, f: &mut fmt::Formatter<W>) -> fmt::Result {
        let byte = self.0;
        write!(f, "{byte:02x}")
    }
}
