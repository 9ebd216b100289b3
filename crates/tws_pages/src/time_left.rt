//! The time that a solution leaves.

ghost use Rattle.std.specs.Prelude.{◌≡◌, Some};
ghost use Rattle.tws_pages.specs.TimeLeft.{limit_shown, time_left, whole_left};

use std::fmt;
use tws_file::Ruleset;

/// The seconds that Tile World shows for a level without a limit.
pub const NO_LIMIT: u32 = 999;

fn limit_shown(limit: u32) -> u32
    ensures { result ≡ limit_shown limit }
{
    if limit == 0 { NO_LIMIT } else { limit }
}

// Displays the whole seconds that are left.
#[derive(Clone, Copy)]
struct WholeLeft {
    limit: u32,
    used: u32,
}

impl fmt::Display for WholeLeft {
    ghost output = { λ w. Some (whole_left w.limit w.used) };

    fn fmt<W: fmt::Write>(&self, f: &mut fmt::Formatter<W>) -> fmt::Result {
        let (limit, used) = (self.limit, self.used);
        if limit < used {
            write!(f, "-{}", used - limit)
        } else {
            write!(f, "{}", limit - used)
        }
    }
}

/// Displays the time that a solution of this many ticks leaves in a level with this limit, in seconds, as Tile World lists
/// it for the ruleset. A limit of 0 is none.
#[derive(Clone, Copy, Debug)]
pub struct TimeLeft {
    pub ruleset: Ruleset,
    pub limit: u32,
    pub ticks: u32,
}

impl fmt::Display for TimeLeft {
    ghost output = { λ t. Some (time_left t.«ruleset» t.limit t.ticks) };

    fn fmt<W: fmt::Write>(&self, f: &mut fmt::Formatter<W>) -> fmt::Result {
        let ticks = self.ticks;
        let whole = WholeLeft {
            limit: limit_shown(self.limit),
            used: ticks / 20,
        };
        match self.ruleset {
            Ruleset::Lynx => write!(f, "{whole} - .{}{}", ticks % 20 / 2, ticks % 2 * 5),
            Ruleset::Ms => write!(f, "{whole} - .{}", ticks % 20 / 2),
        }
    }
}
