//! What is known about the unread datagrams at a port.

/// What is known about the unread datagrams at a port. The system reports an arrival only once.
#[derive(Clone, Copy)]
pub(crate) enum Unread {
    /// There is none that the system has reported.
    Nothing,
    /// One was read since the last report, so there may be more.
    Perhaps,
    /// One was reported and none was read since.
    Reported,
}
