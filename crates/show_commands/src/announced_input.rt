//! Standard input at a terminal.

ghost use Rattle.std.specs.Prelude.{◌≡◌};

use std::io;
use std::io::{Read, Write};

/// Standard input, which says that it is read before it is read for the first time, if there is where to say so. In all else it
/// is the reader below.
#[derive(Drop)]
pub struct AnnouncedInput<R, E> {
    input: R,
    // Where it is still to be said.
    errors: Option<E>,
}

impl<R, E> AnnouncedInput<R, E> {
    /// The same reader, which says once on `errors`, if that is given, that it is read.
    pub fn new(input: R, errors: Option<E>) -> Self
        ensures input { result.input ≡ input }
        ensures errors { result.errors ≡ errors }
    {
        AnnouncedInput { input, errors }
    }
}

impl<R: Read, E: Write + Drop> Read for AnnouncedInput<R, E> {
    ghost remaining = { λ a. R.remaining a.input };

    fn read(&mut self, buf: &mut [u8]) -> io::Result<usize> {
        if let Some(mut errors) = self.errors.take() {
            let _ = writeln!(errors, "tws: reading standard input");
        }
        self.input.read(buf)
    }
}
