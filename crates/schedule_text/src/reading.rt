//! Reads a schedule, line by line.

ghost use Rattle.std.specs.Prelude.{◌≡◌, ℕ, Some, Err, IfOk};
ghost use Rattle.archive_world.specs.View.{events_of};
ghost use Rattle.schedule_text.specs.Schedule.{schedule_of, LineAdds, IsFirstBadLine};

use crate::event_line::event;
use crate::lines::lines_in;
use crate::schedule_fault::ScheduleFault;
use crate::words::words_in;
use archive_world::Event;
use std::alloc::{AllocError, Global};

// Adds the event of a line, if it has words. Returns whether they name one.
fn add_line(alloc: Global, events: &mut Vec<Event>, line: &[u8]) -> Result<bool, AllocError>
    ensures { IfOk result (LineAdds line.now (events_of events.old.items) (events_of events.new.items)) }
{
    let words = words_in(alloc, line)?;
    if words.is_empty() {
        return Ok(true);
    }
    match event(alloc, &words)? {
        Some(event) => {
            events.push(event)?;
            Ok(true)
        }
        None => Ok(false),
    }
}

/// Reads a schedule: one event a line. `#` begins a comment, and a line without words counts for nothing.
///
/// # Errors
///
/// `Line` with the number of the first line that has words and is not an event; out of memory.
pub fn read_schedule(alloc: Global, text: &[u8]) -> Result<Vec<Event>, ScheduleFault>
    ensures events { IfOk result (λ events. schedule_of text.now ≡ Some (events_of events.items)) }
    ensures line { (n : ℕ) → result ≡ Err (ScheduleFault.Line n) → IsFirstBadLine text.now n }
{
    let lines = lines_in(alloc, text)?;
    let mut events = Vec::new(alloc);
    let mut i = 0;
    while i < lines.len() {
        if !add_line(alloc, &mut events, &lines[i])? {
            return Err(ScheduleFault::Line(i + 1));
        }
        i += 1;
    }
    Ok(events)
}
