//! Streams with what the system says of them.

ghost use Rattle.std.specs.Prelude.{◌≡◌, None, Some, OnOk, IfErr};
ghost use Rattle.std.specs.Io.{ReadsAtMost, WritesAtMost};
ghost use Rattle.std.specs.Io.KnownBytes.{Keeps, ReadConsumes, WriteAppends};

use std::io;
use std::io::{Read, Write};

/// A reader or a writer that notes why its last call failed. In all else it is the stream below.
#[derive(Drop)]
pub struct WithLastError<S> {
    stream: S,
    error: Option<io::Error>,
}

impl<S> WithLastError<S> {
    /// The same stream, of which no call has failed yet.
    pub fn new(stream: S) -> Self
        ensures stream { result.stream ≡ stream }
        ensures error { result.error ≡ None }
    {
        WithLastError {
            stream,
            error: None,
        }
    }

    /// What the system said of the last read or write, if that failed.
    pub fn error(&self) -> Option<io::Error>
        ensures { result ≡ self.now.error }
    {
        self.error
    }
}

impl<R: Read> Read for WithLastError<R> {
    ghost remaining = { λ n. R.remaining n.stream };

    fn read(&mut self, buf: &mut [u8]) -> io::Result<usize>
        ensures bound { ReadsAtMost result buf.new }
        ensures bytes { ReadConsumes (R.remaining self.old.stream) (R.remaining self.new.stream) result buf.new }
        ensures last { IfErr result (λ e. self.new.error ≡ Some e) }
        ensures none { OnOk result (self.new.error ≡ None) }
    {
        match self.stream.read(buf) {
            Ok(count) => {
                self.error = None;
                Ok(count)
            }
            Err(error) => {
                self.error = Some(error);
                Err(error)
            }
        }
    }
}

impl<W: Write> Write for WithLastError<W> {
    ghost contents = { λ n. W.contents n.stream };

    fn write(&mut self, buf: &[u8]) -> io::Result<usize>
        ensures bound { WritesAtMost result buf.now }
        ensures bytes { WriteAppends (W.contents self.old.stream) (W.contents self.new.stream) result buf.now }
        ensures last { IfErr result (λ e. self.new.error ≡ Some e) }
        ensures none { OnOk result (self.new.error ≡ None) }
    {
        match self.stream.write(buf) {
            Ok(count) => {
                self.error = None;
                Ok(count)
            }
            Err(error) => {
                self.error = Some(error);
                Err(error)
            }
        }
    }

    fn flush(&mut self) -> io::Result<()> {
        self.stream.flush()
    }
}
