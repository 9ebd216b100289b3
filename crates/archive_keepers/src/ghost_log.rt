//! The ghost log of a keeper over another one.

ghost use Rattle.std.specs.Prelude.{◌≡◌, List};
ghost use Rattle.std.specs.Borrow.{ftrue};
ghost use Rattle.archive_table.specs.Keeper.{Keeping};

use std::marker::Model;

/// A list of what a keeper was given, which exists only in contracts: it takes no memory.
#[derive(Drop)]
pub(crate) struct GhostLog {
    pub(crate) ghost entries: { List Keeping },
}

impl Model for GhostLog {
    ghost also_owns = { λ _. ftrue };
}

impl GhostLog {
    /// Returns the list that its caller names, which may depend on what is passed.
    pub(crate) fn of<T>(_seen: &T) -> Self
        ghost entries: { List Keeping }
        ensures { result.entries ≡ entries }
    {
        GhostLog {}
    }
}
