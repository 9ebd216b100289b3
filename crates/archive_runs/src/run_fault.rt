//! Why a client's run failed.

use archive_client::Cause;
use thiserror::Error;

/// Why a run of a client failed.
#[derive(Clone, Copy, Debug, PartialEq, Eq, Error)]
pub enum RunFault {
    /// No port was opened.
    #[error("Socket")]
    Socket,
    /// The transfer failed, or had not ended when its turns were used up.
    #[error("{0}")]
    Transfer(Cause),
    /// Out of memory for a received block.
    #[error("Memory")]
    Memory,
    /// The file was not written completely.
    #[error("Write")]
    Write,
}
