//! A new file of a folder of the system.

ghost use Rattle.std.specs.Prelude.{◌≡◌, None};

use std::fs::File;
use std::io;
use std::io::{ErrorKind, Write};

/// A new file of a folder of the system. It remembers why a write to it failed, which no caller of a write passes on.
#[derive(Drop)]
pub struct HostFile {
    file: File,
    fault: Option<io::Error>,
}

impl HostFile {
    /// A file to which nothing was written yet.
    pub(crate) fn new(file: File) -> Self
        ensures file { result.file ≡ file }
        ensures fault { result.fault ≡ None }
    {
        HostFile { file, fault: None }
    }

    /// Waits until what was written is on the disk.
    pub(crate) fn sync_all(&self) -> io::Result<()> {
        self.file.sync_all()
    }

    /// Why the last write that failed did so. One without an error took none of the bytes.
    pub(crate) fn fault(&self) -> io::Error {
        match self.fault {
            Some(e) => e,
            None => io::Error::from(ErrorKind::WriteZero),
        }
    }
}

impl Write for HostFile {
    fn write(&mut self, buf: &[u8]) -> io::Result<usize> {
        match self.file.write(buf) {
            Ok(count) => Ok(count),
            Err(e) => {
                self.fault = Some(e);
                Err(e)
            }
        }
    }

    fn flush(&mut self) -> io::Result<()> {
        self.file.flush()
    }
}
