//! Why a client's transfer failed.

use thiserror::Error;

/// Why a transfer failed.
#[derive(Clone, Copy, Debug, PartialEq, Eq, Error)]
pub enum Cause {
    /// The server sent an ERROR with this code, RFC 1350 section 5.
    #[error("refused {0}")]
    Refused(u16),
    /// `MISSES` of `tftp_ends` time-outs in a row, without progress.
    #[error("timed out")]
    TimedOut,
    /// The file has more blocks than can be numbered: a get received a full block `MAX_BLOCKS` of `tftp_ends`, or the file
    /// of a put has more than `MAX_FILE` bytes.
    #[error("too long")]
    TooLong,
    /// Out of memory for a block. Only a get fails with this.
    #[error("out of memory")]
    Memory,
}
