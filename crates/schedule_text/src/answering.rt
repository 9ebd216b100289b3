//! The answer to a schedule.

ghost use Rattle.std.specs.Prelude.{◌≡◌, ℕ, Err, IfOk, string_bytes};
ghost use Rattle.archive_world.specs.View.{events_of};
ghost use Rattle.schedule_text.specs.Schedule.{IsFirstBadLine};
ghost use Rattle.schedule_text.specs.Answer.{Answers, IsAnswer};

use crate::outcome_lines::{fault_line, outcome_lines};
use crate::reading::read_schedule;
use crate::schedule_fault::ScheduleFault;
use archive_memory::MemoryKeeper;
use archive_world::{Event, replay};
use std::alloc::{AllocError, Global};

// Replays events over a keeper that has nothing, and returns the text of what they leave.
fn replayed(alloc: Global, events: &[Event]) -> Result<String, AllocError>
    ensures { IfOk result (λ text. Answers (events_of events.now) (string_bytes text)) }
{
    let mut keeper = MemoryKeeper::new(alloc);
    match replay(alloc, &mut keeper, events) {
        Ok(outcome) => outcome_lines(alloc, &outcome),
        Err(fault) => fault_line(alloc, fault),
    }
}

/// Reads a schedule, replays it from an empty server whose keeper never fails, and returns what it leaves, a line each;
/// or one line that names the first event at fault, counted from 0.
///
/// # Errors
///
/// `Line` with the number of the first line that has words and is not an event; out of memory.
pub fn answer(alloc: Global, text: &[u8]) -> Result<String, ScheduleFault>
    ensures answered { IfOk result (λ lines. IsAnswer text.now (string_bytes lines)) }
    ensures line { (n : ℕ) → result ≡ Err (ScheduleFault.Line n) → IsFirstBadLine text.now n }
{
    let events = match read_schedule(alloc, text) {
        Ok(events) => events,
        Err(fault) => return Err(fault),
    };
    Ok(replayed(alloc, &events)?)
}
