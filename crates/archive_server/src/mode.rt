//! The two ways in which a server visits its ports.

ghost use Rattle.std.specs.Prelude.{◌≡◌};
ghost use Rattle.archive_server.specs.Timers.{counts, deadline, due_by, is_quiet, noticed, restart};

use crate::change::Change;
use crate::policies::Policies;
use archive_wire::{QUIET_TURNS, TIMEOUT};

/// How a server visits its ports.
#[derive(Clone, Copy, Debug, PartialEq, Eq)]
pub enum Mode {
    /// By turns: time is counted in quiet turns, those in which nothing was received.
    Turn,
    /// By rounds, as the wire reports ports that are ready.
    Round {
        /// The time of the wire's clock, in milliseconds.
        now: u64,
        /// The time up to which all that arrived was handed out, if that was just found.
        settled: Option<u64>,
        /// Which requests are let in.
        policies: Policies,
    },
}

// When a port that was opened or sent at `time` times out.
fn deadline_at(time: u64) -> u64
    ensures { result ≡ deadline time }
{
    time.saturating_add(TIMEOUT)
}

impl Mode {
    /// To what the timer of a port restarts.
    pub(crate) fn restart(self) -> u64
        ensures { result ≡ restart self }
    {
        match self {
            Mode::Turn => QUIET_TURNS,
            Mode::Round { now, .. } => deadline_at(now),
        }
    }

    /// Whether a visit with this result counts down each timer.
    pub(crate) fn counts(self, change: Change) -> bool
        ensures { result ≡ counts self (is_quiet change) }
    {
        match self {
            Mode::Turn => change.is_quiet(),
            Mode::Round { .. } => false,
        }
    }

    /// What the timers notice of a change: an answer to a stranger restarts a timer only where turns are counted.
    pub(crate) fn noticed(self, change: Change) -> Change
        ensures { result ≡ noticed self change }
    {
        match (self, change) {
            (Mode::Turn, Change::Answered(port)) => Change::Sent(port, 0),
            (Mode::Round { .. }, Change::Answered(_)) => Change::Nothing,
            (_, change) => change,
        }
    }

    /// Up to which value of their timers ports time out after a visit; `None` if none do.
    pub(crate) fn due_by(self, change: Change) -> Option<u64>
        ensures { result ≡ due_by self (is_quiet change) }
    {
        match self {
            Mode::Turn if change.is_quiet() => Some(0),
            Mode::Turn => None,
            Mode::Round { settled, .. } => settled,
        }
    }
}
