//! The states of a receiver.

/// The state of a receiver.
#[derive(Clone, Copy, Debug, PartialEq, Eq)]
pub enum RecvState {
    /// It waits for the next block.
    Running,
    /// It has the whole file, and still acknowledges the last block if that arrives again.
    Complete,
    /// It gave up, after `MISSES` time-outs in a row.
    TimedOut,
    /// It has the whole file, and no longer waits.
    Over,
}
