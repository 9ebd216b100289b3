//! A step that may have kept a collection.

ghost use Rattle.std.specs.Prelude.{◌≡◌};
ghost use Rattle.archive_pace.specs.Pace.{rest_after};

use crate::limits::PAUSE;

/// A step that took a last block, and so may have kept a collection. Times are in microseconds.
#[derive(Clone, Copy, Debug, Default, PartialEq, Eq)]
pub struct Keep {
    /// The host that sent the block.
    pub host: u32,
    /// When the step ended.
    pub ended: u64,
    /// How long it took.
    pub took: u64,
}

impl Keep {
    /// When the pause after it has passed: `times` as long as it took, `PAUSE` at most.
    pub(crate) fn rest(self, times: u64) -> u64
        ensures { result ≡ rest_after times self }
    {
        self.ended
            .saturating_add(self.took.saturating_mul(times).min(PAUSE))
    }
}
