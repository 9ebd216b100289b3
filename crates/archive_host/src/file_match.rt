//! A file that is compared with what is written.

use std::fs::File;
use std::io;
use std::io::{ErrorKind, Read, Write};

// How many bytes are compared at once.
const PIECE: usize = 4096;

/// A writer that takes the bytes that a file has, and no others: the file is read as they come.
#[derive(Drop)]
pub(crate) struct FileMatch {
    file: File,
}

impl FileMatch {
    /// A file that is at its begin.
    pub(crate) fn new(file: File) -> Self {
        FileMatch { file }
    }

    /// Whether the file has no more bytes.
    pub(crate) fn is_at_end(&mut self) -> io::Result<bool> {
        let mut more = [0; 1];
        Ok(self.file.read(&mut more)? == 0)
    }
}

impl Write for FileMatch {
    fn write(&mut self, buf: &[u8]) -> io::Result<usize> {
        let count = buf.len().min(PIECE);
        let mut piece = [0; PIECE];
        self.file.read_exact(&mut piece[..count])?;
        if piece[..count] == buf[..count] {
            Ok(count)
        } else {
            Err(io::Error::from(ErrorKind::InvalidData))
        }
    }

    fn flush(&mut self) -> io::Result<()> {
        Ok(())
    }
}
