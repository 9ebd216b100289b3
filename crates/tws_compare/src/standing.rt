//! How two solutions of a level compare.

use std::fmt;

/// How the best solutions of two files, mine and theirs, compare at one level.
#[derive(Clone, Copy, Debug, PartialEq, Eq)]
pub enum Standing {
    /// Only my file has a solution.
    OnlyMine,
    /// Only their file has one.
    OnlyTheirs,
    /// Mine is better.
    MineBetter {
        /// By this many ticks; 0 for a tie, in which the rest of the rank decides.
        ticks: u32,
    },
    /// Theirs is better.
    TheirsBetter {
        /// By this many ticks; 0 for a tie, in which the rest of the rank decides.
        ticks: u32,
    },
    /// Both are the same bytes.
    Equal,
}

impl Standing {
    ghost use Rattle.std.specs.Prelude.{◌≡◌};
    ghost use Rattle.tws_compare.specs.Standing.{is_only_mine, is_only_theirs, is_mine_better, is_mine_faster, is_theirs_faster, is_equal, is_tie, is_improvement};

    // Whether only my file has a solution.
    pub(crate) fn is_only_mine(&self) -> bool
        ensures { result ≡ is_only_mine self.now }
    {
        matches!(self, Standing::OnlyMine)
    }

    // Whether only their file has a solution.
    pub(crate) fn is_only_theirs(&self) -> bool
        ensures { result ≡ is_only_theirs self.now }
    {
        matches!(self, Standing::OnlyTheirs)
    }

    // Whether both files have a solution, and mine is better.
    pub(crate) fn is_mine_better(&self) -> bool
        ensures { result ≡ is_mine_better self.now }
    {
        matches!(self, Standing::MineBetter { .. })
    }

    // Whether both files have a solution, and mine has fewer ticks.
    pub(crate) fn is_mine_faster(&self) -> bool
        ensures { result ≡ is_mine_faster self.now }
    {
        match self {
            Standing::MineBetter { ticks } => *ticks != 0,
            Standing::OnlyMine => false,
            Standing::OnlyTheirs => false,
            Standing::TheirsBetter { .. } => false,
            Standing::Equal => false,
        }
    }

    // Whether both files have a solution, and theirs has fewer ticks.
    pub(crate) fn is_theirs_faster(&self) -> bool
        ensures { result ≡ is_theirs_faster self.now }
    {
        match self {
            Standing::TheirsBetter { ticks } => *ticks != 0,
            Standing::OnlyMine => false,
            Standing::OnlyTheirs => false,
            Standing::MineBetter { .. } => false,
            Standing::Equal => false,
        }
    }

    // Whether both files have other solutions with the same ticks.
    pub(crate) fn is_tie(&self) -> bool
        ensures { result ≡ is_tie self.now }
    {
        match self {
            Standing::MineBetter { ticks } => *ticks == 0,
            Standing::TheirsBetter { ticks } => *ticks == 0,
            Standing::OnlyMine => false,
            Standing::OnlyTheirs => false,
            Standing::Equal => false,
        }
    }

    // Whether both files have the same solution.
    pub(crate) fn is_equal(&self) -> bool
        ensures { result ≡ is_equal self.now }
    {
        matches!(self, Standing::Equal)
    }

    // Whether my file has a solution, and theirs none that is as good.
    pub(crate) fn is_improvement(&self) -> bool
        ensures { result ≡ is_improvement self.now }
    {
        self.is_only_mine() || self.is_mine_better()
    }
}

/// The standing in words.
impl fmt::Display for Standing {
    ghost use Rattle.std.specs.Prelude.{Some};
    ghost use Rattle.tws_compare.specs.Lines.{standing_text};

    ghost output = { λ s. Some (standing_text s) };

    fn fmt<W: fmt::Write>(&self, f: &mut fmt::Formatter<W>) -> fmt::Result {
        match self {
            Standing::OnlyMine => write!(f, "only mine"),
            Standing::OnlyTheirs => write!(f, "only theirs"),
            Standing::MineBetter { ticks } => write!(f, "{}", Mine(*ticks)),
            Standing::TheirsBetter { ticks } => write!(f, "{}", Theirs(*ticks)),
            Standing::Equal => write!(f, "equal"),
        }
    }
}

// By how many ticks mine is better.
#[derive(Drop)]
struct Mine(u32);

impl fmt::Display for Mine {
    ghost use Rattle.std.specs.Prelude.{Some};
    ghost use Rattle.tws_compare.specs.Lines.{mine_text};

    ghost output = { λ mine. Some (mine_text mine.0) };

    fn fmt<W: fmt::Write>(&self, f: &mut fmt::Formatter<W>) -> fmt::Result {
        match self.0 {
            0 => write!(f, "tie, mine is kept"),
            ticks => write!(f, "mine better by {ticks} ticks"),
        }
    }
}

// By how many ticks theirs is better.
#[derive(Drop)]
struct Theirs(u32);

impl fmt::Display for Theirs {
    ghost use Rattle.std.specs.Prelude.{Some};
    ghost use Rattle.tws_compare.specs.Lines.{theirs_text};

    ghost output = { λ theirs. Some (theirs_text theirs.0) };

    fn fmt<W: fmt::Write>(&self, f: &mut fmt::Formatter<W>) -> fmt::Result {
        match self.0 {
            0 => write!(f, "tie, theirs is kept"),
            ticks => write!(f, "theirs better by {ticks} ticks"),
        }
    }
}
