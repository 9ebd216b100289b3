//! What the caller sees of a client's phase.

use tftp_packet::Cause;

/// How far a client has got.
#[derive(Clone, Copy, Debug, PartialEq, Eq)]
pub enum State {
    /// It waits for the server.
    Running,
    /// A put received the last ACK: the server has the whole file.
    Sent,
    /// A get has the whole file. It may still acknowledge the last block if that arrives again.
    Got,
    /// It failed, and sends nothing more.
    Failed(Cause),
}
