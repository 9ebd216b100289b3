//! How many solutions stop Tile World in each collection.

ghost use Rattle.std.specs.Prelude.{◌≡◌, if◌then◌else◌};
ghost use Rattle.archive_keepers.specs.Readable.{counted, no_counts, with_count};

use tws_file::Ruleset;

/// How many solutions stop Tile World in each collection.
#[derive(Clone, Copy, Debug)]
pub struct Counts {
    pub(crate) lynx: usize,
    pub(crate) ms: usize,
}

impl Counts {
    /// None in either.
    pub(crate) fn none() -> Self
        ensures { result ≡ no_counts }
    {
        Counts { lynx: 0, ms: 0 }
    }

    /// How many there are of this ruleset.
    pub(crate) fn of(self, ruleset: Ruleset) -> usize
        ensures { result ≡ counted «ruleset» self }
    {
        match ruleset {
            Ruleset::Lynx => self.lynx,
            Ruleset::Ms => self.ms,
        }
    }

    /// The same, with this many of this ruleset.
    pub(crate) fn with(self, ruleset: Ruleset, count: usize) -> Self
        ensures { result ≡ with_count «ruleset» count self }
    {
        match ruleset {
            Ruleset::Lynx => Counts {
                lynx: count,
                ms: self.ms,
            },
            Ruleset::Ms => Counts {
                lynx: self.lynx,
                ms: count,
            },
        }
    }

    /// The same after a keep of a collection of this ruleset, with this many.
    pub(crate) fn after(self, ruleset: Ruleset, count: usize, is_kept: bool) -> Self
        ensures { result ≡ (if is_kept then with_count «ruleset» count self else self) }
    {
        if is_kept {
            self.with(ruleset, count)
        } else {
            self
        }
    }
}
