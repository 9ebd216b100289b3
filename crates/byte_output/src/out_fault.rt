//! Why a text was not written in full.

ghost use Rattle.std.specs.Prelude.{◌≡◌};
ghost use Rattle.byte_output.specs.declared.out_fault.OutFault.TheVariants.{Memory};

use std::alloc::AllocError;
use thiserror::Error;

/// Why a text was not written in full. A proper prefix of it was written.
#[derive(Clone, Copy, Debug, PartialEq, Eq, Error)]
pub enum OutFault {
    /// The writer returned an error, or took none of the bytes it was offered.
    #[error("Io")]
    Io,
    /// Out of memory.
    #[error("Memory")]
    Memory,
}

impl From<AllocError> for OutFault {
    ghost from_gives = { λ _ e. e ≡ Memory };

    fn from(_error: AllocError) -> Self {
        OutFault::Memory
    }
}
