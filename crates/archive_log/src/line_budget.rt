//! How many lines of the log the requests that are turned away may have.

ghost use Rattle.std.specs.Prelude.{◌≡◌};
ghost use Rattle.archive_log.specs.Budget.{after_line, is_admitted, left_out_by, lines_in, new_budget, settled, settled_by};

/// How many lines of refused and dropped requests a log has at most in each second of the clock: anybody can make them as fast
/// as the network carries requests.
pub const LINES: u64 = 10;

/// How many lines of refused and dropped requests were written in a second, and how many were left out. Moments are in
/// milliseconds of a clock that does not go back.
#[derive(Clone, Copy, Debug, PartialEq, Eq)]
pub struct LineBudget {
    /// The second of the clock in which such a line was asked for last.
    pub second: u64,
    /// How many lines were admitted in that second, at most `LINES`.
    pub lines: u64,
    /// How many lines were left out and have not been reported.
    pub left_out: u64,
}

impl LineBudget {
    /// The budget before any line.
    pub fn new() -> Self
        ensures { result ≡ new_budget }
    {
        LineBudget {
            second: 0,
            lines: 0,
            left_out: 0,
        }
    }

    // How many lines were admitted in this second.
    fn lines_in(&self, second: u64) -> u64
        ensures { result ≡ lines_in second self.now }
    {
        if self.second == second { self.lines } else { 0 }
    }

    /// Asks for a line at this moment. Returns whether it is to be written: if fewer than `LINES` were admitted in its second.
    /// Else it is counted as left out.
    pub fn admit(&mut self, now: u64) -> bool
        ensures admitted { result ≡ is_admitted now self.old }
        ensures counted { self.new ≡ after_line now self.old }
    {
        let second = now / 1000;
        let lines = self.lines_in(second);
        self.second = second;
        if lines < LINES {
            self.lines = lines + 1;
            true
        } else {
            self.lines = lines;
            self.left_out = self.left_out.saturating_add(1);
            false
        }
    }

    /// Returns how many lines were left out and have not been reported, and counts them as reported.
    pub fn take(&mut self) -> u64
        ensures count { result ≡ self.old.left_out }
        ensures taken { self.new ≡ settled self.old }
    {
        let left_out = self.left_out;
        self.left_out = 0;
        left_out
    }

    /// The same, once the second in which they were left out is over at this moment; 0 before, and nothing changes.
    pub fn take_by(&mut self, now: u64) -> u64
        ensures count { result ≡ left_out_by now self.old }
        ensures taken { self.new ≡ settled_by now self.old }
    {
        if now / 1000 == self.second {
            0
        } else {
            self.take()
        }
    }
}
