//! A password as text.

ghost use Rattle.std.specs.Prelude.{◌≡◌, true, false, Some, MatchOption};
ghost use Rattle.std.specs.List.{list_all};
ghost use Rattle.std.specs.Char.{is_ascii_alphabetic};
ghost use Rattle.tws_file.specs.Words.{password_text};

use crate::hex::Hex;
use std::fmt;

/// A password as listings show it: four letters as they are, or else an `x` and the bytes as hexadecimal digits.
#[derive(Clone, Copy, Debug)]
pub struct Password(pub [u8; 4]);

impl Password {
    /// Whether all four bytes are letters of ASCII.
    pub fn is_letters(&self) -> bool
        ensures { result ≡ list_all is_ascii_alphabetic self.now.0 }
    {
        self.0.iter().all(|b| b.is_ascii_alphabetic())
    }

    // The bytes as text, if all of them are letters.
    fn letters(&self) -> Option<&str>
        ensures { MatchOption result
            (list_all is_ascii_alphabetic self.now.0 ≡ false)
            (λ text. (list_all is_ascii_alphabetic self.now.0 ≡ true) × (text.now ≡ self.now.0)) }
    {
        if self.is_letters() {
            str::from_utf8(&self.0).ok()
        } else {
            None
        }
    }
}

impl fmt::Display for Password {
    ghost output = { λ p. Some (password_text p.0) };

    fn fmt<W: fmt::Write>(&self, f: &mut fmt::Formatter<W>) -> fmt::Result {
        match self.letters() {
            Some(text) => f.write_str(text),
            None => write!(f, "x{}", Hex(&self.0)),
        }
    }
}
