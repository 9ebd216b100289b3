//! The states of a sender.

/// The state of a sender.
#[derive(Clone, Copy, Debug, PartialEq, Eq)]
pub enum SendState {
    /// It waits for the ACK of its current block.
    Running,
    /// The ACK of the last block has arrived.
    Finished,
    /// It gave up, after `MISSES` time-outs in a row.
    TimedOut,
}
