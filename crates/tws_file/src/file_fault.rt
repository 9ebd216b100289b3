//! Why bytes are no solution file.

ghost use Rattle.std.specs.Prelude.{◌≡◌};
ghost use Rattle.tws_file.specs.declared.file_fault.FileFault.TheVariants.{Memory};

use std::alloc::{AllocError, AllocFailed};
use thiserror::Error;

/// Why bytes are not a solution file.
///
/// Offsets are counted in bytes from the start of the file. Only the first fault in the file is reported.
#[derive(Clone, Copy, Debug, PartialEq, Eq, Error)]
pub enum FileFault {
    /// The file ends inside its header. The value is the file's length.
    #[error("ShortHeader({0})")]
    ShortHeader(u64),
    /// The file does not begin with the signature `35 33 9B 99`.
    #[error("BadSignature")]
    BadSignature,
    /// Byte 4 is not the code of a ruleset. The value is that byte.
    #[error("BadRuleset({0})")]
    BadRuleset(u8),
    /// The file ends inside a record. The value is the offset of that record's size field.
    #[error("ShortRecord({0})")]
    ShortRecord(u64),
    /// A size that no record has. The value is the offset of the size field.
    #[error("BadSize({0})")]
    BadSize(u64),
    /// A solution's moves end inside a move. The value is the offset of that move's first byte.
    #[error("MoveCut({0})")]
    MoveCut(u64),
    /// Out of memory, which says nothing about the bytes.
    #[error("Memory")]
    Memory,
}

impl From<AllocError> for FileFault {
    ghost from_gives = { λ _ e. e ≡ Memory };

    fn from(_error: AllocError) -> Self {
        FileFault::Memory
    }
}

impl<T: Drop> From<AllocFailed<T>> for FileFault {
    ghost from_gives = { λ _ e. e ≡ Memory };

    fn from(_error: AllocFailed<T>) -> Self {
        FileFault::Memory
    }
}
