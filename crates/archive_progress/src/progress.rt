//! How far a transfer has come, and how this is displayed.

ghost use Rattle.std.specs.Prelude.{◌≡◌, ◌++◌, Some};
ghost use Rattle.archive_progress.specs.Text.{bytes_of, left_of, left_text, progress_text, rate_of};

use std::fmt;
use tftp_packet::BLOCK_SIZE;

/// How far a transfer has come.
#[derive(Clone, Copy)]
pub(crate) struct Progress {
    /// How many blocks the receiving end has acknowledged. The last of a transfer is never among them, since it ends the
    /// transfer; all others have `BLOCK_SIZE` bytes.
    pub blocks: u16,
    /// How many bytes the file has, if that is known.
    pub length: Option<u64>,
    /// For how many milliseconds the transfer has run.
    pub millis: u64,
}

impl Progress {
    /// How many bytes the blocks have.
    pub(crate) fn bytes(&self) -> u64
        ensures { result ≡ bytes_of self.now }
    {
        u64::from(self.blocks) * BLOCK_SIZE as u64
    }

    /// The average rate in bytes per second, rounded down. A transfer that has run for 0 ms counts as one of 1 ms.
    pub(crate) fn rate(&self) -> u64
        ensures { result ≡ rate_of self.now }
    {
        self.bytes() * 1000 / self.millis.max(1)
    }

    /// How many bytes of the file are left, if its length is known.
    pub(crate) fn left(&self) -> Option<u64>
        ensures { result ≡ left_of self.now }
    {
        let bytes = self.bytes();
        match self.length {
            Some(length) => Some(length.saturating_sub(bytes)),
            None => None,
        }
    }
}

/// The line without its end: `block 5, 2560 bytes, 1280 bytes/s`, and `, 1024 bytes left` where that is known.
impl fmt::Display for Progress {
    ghost output = { λ p. Some (progress_text p) };

    fn fmt<W: fmt::Write>(&self, f: &mut fmt::Formatter<W>) -> fmt::Result {
        let (block, bytes, rate) = (self.blocks, self.bytes(), self.rate());
        write!(f, "block {block}, {bytes} bytes, {rate} bytes/s")?;
        match self.left() {
            Some(left) => write!(f, ", {left} bytes left"),
            None => Ok(()),
        }
    }
}
