//! Why a text is no schedule.

ghost use Rattle.std.specs.Prelude.{◌≡◌};
ghost use Rattle.schedule_text.specs.declared.schedule_fault.ScheduleFault.TheVariants.{Memory};

use std::alloc::AllocError;
use thiserror::Error;

/// Why a text was not read as a schedule.
#[derive(Clone, Copy, Debug, PartialEq, Eq, Error)]
pub enum ScheduleFault {
    /// The line with this number, counted from 1, is the first that is neither an event nor empty.
    #[error("line {0} is not an event")]
    Line(usize),
    /// Out of memory.
    #[error("out of memory")]
    Memory,
}

impl From<AllocError> for ScheduleFault {
    ghost from_gives = { λ _ e. e ≡ Memory };

    fn from(_error: AllocError) -> Self {
        ScheduleFault::Memory
    }
}
