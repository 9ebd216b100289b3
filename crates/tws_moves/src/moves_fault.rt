//! Why bytes are no moves.

ghost use Rattle.std.specs.Prelude.{◌≡◌};
ghost use Rattle.tws_moves.specs.declared.moves_fault.MovesFault.TheVariants.{Memory};

use std::alloc::{AllocError, AllocFailed};
use thiserror::Error;

/// Why bytes were not read as moves.
#[derive(Clone, Copy, Debug, PartialEq, Eq, Error)]
pub enum MovesFault {
    /// The bytes end inside a move. `at` is the offset of its first byte.
    #[error("Cut({at})")]
    Cut { at: u64 },
    /// Out of memory, which says nothing about the bytes.
    #[error("Memory")]
    Memory,
}

impl From<AllocError> for MovesFault {
    ghost from_gives = { λ _ e. e ≡ Memory };

    fn from(_error: AllocError) -> Self {
        MovesFault::Memory
    }
}

impl<T: Drop> From<AllocFailed<T>> for MovesFault {
    ghost from_gives = { λ _ e. e ≡ Memory };

    fn from(_error: AllocFailed<T>) -> Self {
        MovesFault::Memory
    }
}
