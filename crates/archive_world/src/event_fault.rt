//! Why an event fails.

/// Why an event fails.
#[derive(Clone, Copy)]
pub(crate) enum EventFault {
    /// It is not allowed at its place.
    Bad,
    /// A pair of endpoints would serve two transfers, or two ends would have one endpoint.
    Reused,
    /// The keeper has not kept the collection that a restart is to find.
    NotKept,
    /// The server cannot load what its keeper has.
    NotLoaded,
    /// Out of memory.
    Memory,
}
