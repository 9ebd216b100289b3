//! For how many turns or rounds a server serves.

ghost use Rattle.std.specs.Prelude.{◌≡◌, ◌<◌};
ghost use Rattle.archive_serving.specs.Serve.{IsLimitFor, count_of};

use crate::limits::TURNS;

/// What a server makes before it stops: turns, or rounds that wait for ready ports.
#[derive(Clone, Copy, Debug, PartialEq, Eq)]
pub enum TurnLimit {
    /// This many turns.
    Turns(u64),
    /// This many rounds.
    Rounds(u64),
}

impl TurnLimit {
    /// The limit of a server that is given this many turns. If they are the most there are, these are more rounds than any
    /// server will live to make.
    pub fn of(turns: u64) -> Self
        ensures { IsLimitFor turns result }
    {
        if turns < TURNS {
            TurnLimit::Turns(turns)
        } else {
            TurnLimit::Rounds(u64::MAX)
        }
    }

    /// How many turns or rounds these are.
    pub(crate) fn count(self) -> u64
        ensures { result ≡ count_of self }
    {
        match self {
            TurnLimit::Turns(turns) => turns,
            TurnLimit::Rounds(rounds) => rounds,
        }
    }
}
