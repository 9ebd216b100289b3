//! The timer of a live port.

/// When the transfer at a live port times out, and how far it has come.
#[derive(Clone, Copy, Debug, Default, PartialEq, Eq)]
pub struct Timer {
    /// The port.
    pub port: u16,
    /// In the server that counts turns, how many quiet turns are left; in the one that waits, the time in milliseconds.
    pub due: u64,
    /// What `due` was when the transfer was opened: one second after that, in the server that waits.
    pub first_due: u64,
    /// The greatest number of a block that was sent or acknowledged in answer to the peer; 0 if the peer was not heard since
    /// its request.
    pub reached: u16,
}
