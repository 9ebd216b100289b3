//! Why moves have no bytes.

ghost use Rattle.std.specs.Prelude.{◌≡◌};
ghost use Rattle.tws_moves.specs.declared.spell_fault.SpellFault.TheVariants.{Memory};

use std::alloc::{AllocError, AllocFailed};
use thiserror::Error;

/// Why moves were not written as bytes.
#[derive(Clone, Copy, Debug, PartialEq, Eq, Error)]
pub enum SpellFault {
    /// A move waits too long after the one before it: no layout holds its wait. `index` counts moves from 0.
    #[error("TooLate({index})")]
    TooLate { index: usize },
    /// Out of memory, which says nothing about the moves.
    #[error("Memory")]
    Memory,
}

impl From<AllocError> for SpellFault {
    ghost from_gives = { λ _ e. e ≡ Memory };

    fn from(_error: AllocError) -> Self {
        SpellFault::Memory
    }
}

impl<T: Drop> From<AllocFailed<T>> for SpellFault {
    ghost from_gives = { λ _ e. e ≡ Memory };

    fn from(_error: AllocFailed<T>) -> Self {
        SpellFault::Memory
    }
}
