//! Why several inputs are not open.

ghost use Rattle.std.specs.Prelude.{◌≡◌};
ghost use Rattle.show_commands.specs.declared.not_opened.NotOpened.TheVariants.{Memory};

use std::alloc::AllocFailed;

/// Why several inputs are not open.
#[derive(Clone, Copy)]
pub(crate) enum NotOpened {
    /// Out of memory for all of them.
    Memory,
    /// A file cannot be opened, which was reported.
    Reported,
}

impl<T: Drop> From<AllocFailed<T>> for NotOpened {
    ghost from_gives = { λ _ e. e ≡ Memory };

    fn from(_error: AllocFailed<T>) -> Self {
        NotOpened::Memory
    }
}
