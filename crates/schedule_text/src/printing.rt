//! Writes the answer to a schedule.

ghost use Rattle.std.specs.Prelude.{◌≡◌, ◌≤◌, ℕ, List};
ghost use Rattle.std.specs.Io.KnownBytes.{Appends};
ghost use Rattle.schedule_text.specs.Schedule.{IsFirstBadLine};
ghost use Rattle.schedule_text.specs.Answer.{IsAnswer};

use crate::answering::answer;
use crate::schedule_fault::ScheduleFault;
use byte_output::put;
use std::alloc::Global;
use std::io::Write;

/// Writes the answer to a schedule, and returns the exit status: 0 if the answer was written; 1 if a line is not an event,
/// with its number as one line to `errors`; 2 if the writer failed or memory ran out. At 2 a part of the answer may have
/// been written, or the line `out of memory`.
pub fn print_answer<W: Write, E: Write>(
    alloc: Global,
    text: &[u8],
    out: &mut W,
    errors: &mut E,
) -> u8
    ensures done { result ≡ 0 → (lines : List ℕ) × IsAnswer text.now lines × Appends (W.contents out.old) (W.contents out.new) lines }
    ensures silent { result ≡ 0 → errors.new ≡ errors.old }
    ensures line { result ≡ 1 → (n : ℕ) × IsFirstBadLine text.now n }
    ensures unwritten { result ≡ 1 → out.new ≡ out.old }
    ensures few { result ≤ 2 }
{
    match answer(alloc, text) {
        Ok(lines) => match put(out, lines.as_bytes()) {
            Ok(()) => 0,
            Err(_) => 2,
        },
        Err(ScheduleFault::Line(number)) => {
            // There is nowhere left to report that this failed.
            let _ = writeln!(errors, "replay_schedule: line {number} is not an event");
            1
        }
        Err(ScheduleFault::Memory) => {
            let _ = put(out, b"out of memory\n");
            2
        }
    }
}
