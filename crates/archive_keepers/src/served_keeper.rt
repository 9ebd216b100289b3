//! What a running server asks of its keeper.

ghost use Rattle.std.specs.Prelude.{◌≡◌, Bool, true};

use crate::folder_keeper::FolderKeeper;
use crate::limited::Limited;
use crate::no_keeper::NoKeeper;
use crate::readable::Readable;
use crate::replaced::Replaced;
use archive_table::Keeper;
use folders::Folder;
use std::io;

/// A keeper that a server can serve with, which reports when that has to end.
pub trait ServedKeeper: Keeper {
    /// Whether the outcome of every call of `keep` so far is known, and nothing was replaced.
    ghost usable: { Self → Bool };

    /// Whether the outcome of every call of `keep` so far is known, and nothing was replaced. Otherwise a restart may load
    /// another collection than the last one, so the server has to end.
    fn is_usable(&self) -> bool
        ensures { result ≡ usable self.now };

    /// What was replaced, if that was found out. Then the last call of `keep` kept nothing.
    fn replaced(&self) -> Option<Replaced>;

    /// How many collections it refused for the solutions in them, saturating.
    fn unreadable(&self) -> u64;

    /// What the system said of its call that failed last, if one has and that is known.
    fn last_error(&self) -> Option<io::Error>;
}

impl ServedKeeper for NoKeeper {
    ghost usable = { λ _. true };

    fn is_usable(&self) -> bool {
        true
    }

    fn replaced(&self) -> Option<Replaced> {
        None
    }

    fn unreadable(&self) -> u64 {
        0
    }

    fn last_error(&self) -> Option<io::Error> {
        None
    }
}

impl<F: Folder> ServedKeeper for FolderKeeper<F> {
    ghost usable = { λ k. k.is_usable };

    fn is_usable(&self) -> bool {
        FolderKeeper::is_usable(self)
    }

    fn replaced(&self) -> Option<Replaced> {
        None
    }

    fn unreadable(&self) -> u64 {
        0
    }

    fn last_error(&self) -> Option<io::Error> {
        self.folder().last_error()
    }
}

impl<K: ServedKeeper> ServedKeeper for Limited<K> {
    ghost usable = { λ l. K.usable l.keeper };

    fn is_usable(&self) -> bool {
        self.keeper().is_usable()
    }

    fn replaced(&self) -> Option<Replaced> {
        self.keeper().replaced()
    }

    fn unreadable(&self) -> u64 {
        self.keeper().unreadable()
    }

    fn last_error(&self) -> Option<io::Error> {
        self.keeper().last_error()
    }
}

impl<K: ServedKeeper> ServedKeeper for Readable<K> {
    ghost usable = { λ r. K.usable r.keeper };

    fn is_usable(&self) -> bool {
        self.keeper().is_usable()
    }

    fn replaced(&self) -> Option<Replaced> {
        self.keeper().replaced()
    }

    fn unreadable(&self) -> u64 {
        self.refused()
    }

    fn last_error(&self) -> Option<io::Error> {
        self.keeper().last_error()
    }
}
