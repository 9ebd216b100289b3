//! Why a keeper failed.

use thiserror::Error;

/// Why a keeper did not keep or load a collection.
#[derive(Clone, Copy, Debug, PartialEq, Eq, Error)]
pub enum KeepFault {
    /// The device failed.
    #[error("Device")]
    Device,
    /// Out of memory.
    #[error("Memory")]
    Memory,
}
