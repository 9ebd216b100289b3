//! What every line of the log is made of, and how many of some kinds there are. These functions do nothing: each contract is a
//! law.

ghost use Rattle.std.specs.Prelude.{◌≡◌, ℕ, List};
ghost use Rattle.std.specs.List.{All};
ghost use Rattle.byte_output.specs.Printable.{IsPrintable};
ghost use Rattle.archive_log.specs.declared.log_event.LogEvent.{LogEvent};
ghost use Rattle.archive_log.specs.Lines.{line_of};
ghost use Rattle.archive_log.specs.declared.line_budget.TheConstants.{LINES};

/// A line is printable ASCII alone, whatever a peer, a folder's name or the system put into the event: so no event can end
/// its line or begin another. `time` is what its clock showed.
pub fn line_law()
    ensures { (time : List ℕ) (event : LogEvent) → All IsPrintable time → All IsPrintable (line_of time event) }
{}

/// How many lines of refused and dropped requests a second has at most.
pub fn limit_values()
    ensures { LINES ≡ 10 }
{}
