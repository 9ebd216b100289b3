//! The report of a standard stream that failed.

ghost use Rattle.std.specs.Prelude.{◌≡◌, ◌≢◌};
ghost use Rattle.command_line.specs.Printing.{ReportsStreams};

use crate::reporting::report_cause;
use crate::status::FAILED;
use std::io::Write;
use system_files::WithLastError;

/// Prints why standard output or input failed, if the program ended with this status for that, in a line after its report.
/// Returns the status.
pub fn report_streams<R, W, E: Write>(
    status: u8,
    input: &WithLastError<R>,
    out: &WithLastError<W>,
    errors: &mut E,
) -> u8
    ensures status { result ≡ status }
    ensures silent { status ≢ 2 → errors.new ≡ errors.old }
    ensures printed { status ≡ 2 → ReportsStreams out.now.error input.now.error (E.contents errors.old) (E.contents errors.new) }
{
    if status != FAILED {
        return status;
    }
    match (out.error(), input.error()) {
        (Some(cause), _) => report_cause(status, "standard output", &cause, errors),
        (None, Some(cause)) => report_cause(status, "standard input", &cause, errors),
        (None, None) => status,
    }
}
