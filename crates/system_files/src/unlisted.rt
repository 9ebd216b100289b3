//! Why the files below a folder are not known.

ghost use Rattle.std.specs.Prelude.{◌≡◌};
ghost use Rattle.system_files.specs.declared.unlisted.Unlisted.TheVariants.{Memory};

use std::alloc::{AllocError, AllocFailed};
use std::io;

/// Why the files below a folder are not known.
#[derive(Drop)]
pub enum Unlisted {
    /// Out of memory for their names.
    Memory,
    /// The folder of this name, the same or one below it, cannot be listed, for this cause.
    Folder { name: String, cause: io::Error },
}

impl From<AllocError> for Unlisted {
    ghost from_gives = { λ _ e. e ≡ Memory };

    fn from(_error: AllocError) -> Self {
        Unlisted::Memory
    }
}

impl<T: Drop> From<AllocFailed<T>> for Unlisted {
    ghost from_gives = { λ _ e. e ≡ Memory };

    fn from(_error: AllocFailed<T>) -> Self {
        Unlisted::Memory
    }
}
