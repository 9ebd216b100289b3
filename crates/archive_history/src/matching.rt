//! A writer that compares.

ghost use Rattle.std.specs.Prelude.{◌≡◌, ◌≤◌, length, take, true};

use std::io;
use std::io::{ErrorKind, Write};

/// A writer that takes the bytes that are expected, and no others.
#[derive(Drop)]
pub(crate) struct Matching<'a> {
    wanted: &'a [u8],
    // How many of them have come.
    at: usize,
    ghost inside: { at ≤ length wanted.now },
}

impl<'a> Matching<'a> {
    /// Nothing has come yet.
    pub(crate) fn new(wanted: &'a [u8]) -> Self
        ensures wanted { result.wanted.now ≡ wanted.now }
        ensures none { result.at ≡ 0 }
    {
        Matching { wanted, at: 0 }
    }

    /// Whether these bytes are expected, and all have come. Whoever borrows a writer may put another in its place.
    pub(crate) fn has_all(&self, wanted: &[u8]) -> bool
        ensures { result ≡ true → take self.now.at self.now.wanted.now ≡ wanted.now }
    {
        self.wanted == wanted && self.at == wanted.len()
    }
}

impl Write for Matching<'_> {
    ghost use Rattle.std.specs.Prelude.{Some, take};

    ghost contents = { λ m. Some (take m.at m.wanted.now) };

    fn write(&mut self, buf: &[u8]) -> io::Result<usize> {
        let rest = &self.wanted[self.at..];
        if !rest.starts_with(buf) {
            return Err(io::Error::from(ErrorKind::InvalidData));
        }
        self.at += buf.len();
        Ok(buf.len())
    }

    fn flush(&mut self) -> io::Result<()> {
        Ok(())
    }
}
