//! Which call of a wire failed.

use thiserror::Error;

/// Which call of a wire failed.
#[derive(Clone, Copy, Debug, PartialEq, Eq, Error)]
pub enum WireFault {
    /// No port was opened.
    #[error("Open")]
    Open,
    /// The port was not closed.
    #[error("Close")]
    Close,
    /// Nothing was received.
    #[error("Receive")]
    Receive,
    /// The datagram was not sent.
    #[error("Send")]
    Send,
}
