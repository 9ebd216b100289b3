//! Why a replay from what a keeper has left no outcome.

use crate::world_fault::WorldFault;
use archive_table::LoadFault;
use thiserror::Error;

/// Why a replay from what a keeper has left no outcome.
#[derive(Clone, Copy, Debug, PartialEq, Eq, Error)]
pub enum ReplayFault {
    /// The server cannot load what its keeper has at first.
    #[error("NotStarted({0})")]
    NotStarted(LoadFault),
    /// The events have no run.
    #[error("{0}")]
    Ended(WorldFault),
}
