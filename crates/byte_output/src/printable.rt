//! Texts of bytes of any value, shown in printable ASCII alone.

ghost use Rattle.std.specs.Prelude.{◌≡◌, ◌≤◌, Some};
ghost use Rattle.byte_output.specs.Printable.{shown, shown_byte};

use std::fmt;

/// A text of bytes of any value, as a line on a terminal or in a log shows it: in printable ASCII alone.
#[derive(Clone, Copy, Debug)]
pub struct Printable<'a> {
    bytes: &'a [u8],
}

// The byte itself, or a question mark in place of what is not printable ASCII.
fn shown_byte(byte: u8) -> u8
    ensures { result ≡ shown_byte byte }
{
    if byte >= b' ' && byte <= b'~' {
        byte
    } else {
        b'?'
    }
}

impl<'a> Printable<'a> {
    /// The text of these bytes.
    pub fn of(bytes: &'a [u8]) -> Self
        ensures { result.bytes.now ≡ bytes.now }
    {
        Printable { bytes }
    }
}

/// Each byte outside printable ASCII is shown as a question mark.
impl fmt::Display for Printable<'_> {
    ghost output = { λ text. Some (shown text.bytes.now) };

    fn fmt<W: fmt::Write>(&self, f: &mut fmt::Formatter<W>) -> fmt::Result {
        for byte in self.bytes {
            f.write_char(char::from(shown_byte(*byte)))?;
        }
        Ok(())
    }
}
