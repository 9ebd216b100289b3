//! Why two files were not compared.

ghost use Rattle.std.specs.Prelude.{◌≡◌};
ghost use Rattle.tws_compare.specs.declared.compare_fault.CompareFault.TheVariants.{Memory};

use std::alloc::{AllocError, AllocFailed};
use thiserror::Error;

/// Why two files were not compared.
#[derive(Clone, Copy, Debug, PartialEq, Eq, Error)]
pub enum CompareFault {
    /// The files are of different rulesets.
    #[error("different rulesets")]
    Rulesets,
    /// Out of memory.
    #[error("out of memory")]
    Memory,
}

impl From<AllocError> for CompareFault {
    ghost from_gives = { λ _ e. e ≡ Memory };

    fn from(_error: AllocError) -> Self {
        CompareFault::Memory
    }
}
