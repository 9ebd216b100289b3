//! How long a client waits before it times out.

ghost use Rattle.std.specs.Prelude.{◌≡◌, min};
ghost use Rattle.archive_runs.specs.Rounds.{asking, dallying, moment_after};

use crate::limits::{DALLY_LIMIT, DALLY_PAUSE};
use archive_wire::TIMEOUT;

/// How long a client waits that goes by the clock of its wire.
#[derive(Clone, Copy, Debug, PartialEq, Eq)]
pub struct Pace {
    /// How many milliseconds after it last sent it times out.
    pub pause: u64,
    /// The moment beyond which it never waits, in milliseconds of the wire's clock.
    pub until: u64,
}

/// The moment `pause` milliseconds after `time`.
pub(crate) fn moment_after(pause: u64, time: u64) -> u64
    ensures { result ≡ moment_after pause time }
{
    time.saturating_add(pause)
}

impl Pace {
    /// For an answer.
    pub(crate) fn asking() -> Self
        ensures { result ≡ asking }
    {
        Pace {
            pause: TIMEOUT,
            until: u64::MAX,
        }
    }

    /// For a repeated last block, from this time on.
    pub(crate) fn dallying(time: u64) -> Self
        ensures { result ≡ dallying time }
    {
        Pace {
            pause: DALLY_PAUSE,
            until: moment_after(DALLY_LIMIT, time),
        }
    }

    /// The moment up to which it waits, if its client times out at `due`.
    pub(crate) fn wait_end(self, due: u64) -> u64
        ensures { result ≡ min due self.until }
    {
        due.min(self.until)
    }
}
