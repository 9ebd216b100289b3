//! Why a list of events has no run.

use thiserror::Error;

/// Why a list of events has no run. Events are counted from 0.
#[derive(Clone, Copy, Debug, PartialEq, Eq, Error)]
pub enum WorldFault {
    /// This event is not allowed at its place, or is a keep with an unknown outcome of a file that changes no collection.
    #[error("BadEvent({0})")]
    BadEvent(usize),
    /// With this event a pair of endpoints would serve two transfers, or two ends would have one endpoint.
    #[error("PortReused({0})")]
    PortReused(usize),
    /// The keeper has not kept the collection that the server is to find at this event.
    #[error("NotKept({0})")]
    NotKept(usize),
    /// At this event the server cannot load what its keeper has.
    #[error("NotLoaded({0})")]
    NotLoaded(usize),
    /// Out of memory.
    #[error("Memory")]
    Memory,
}
