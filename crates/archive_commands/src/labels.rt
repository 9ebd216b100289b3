//! How a file is named in the lines about it: where several are sent, each line begins with its name.

ghost use Rattle.std.specs.Prelude.{◌≡◌, ◌≤◌, ◌++◌, true, OnOk, map, string_bytes};
ghost use Rattle.command_line.specs.Faults.{answer_status, status_of};
ghost use Rattle.command_line.specs.Printing.{Printed};
ghost use Rattle.archive_commands.specs.Labels.{are_several, label_of};
ghost use Rattle.archive_commands.specs.Reports.{ReportsSent, ReportsTransfer, file_fault_lines, name_of, names_of};

use crate::reporting::report_more;
use crate::transfer_wire::TransferWire;
use command_line::{DONE, Source, ToolFault, print_about, report};
use std::alloc::AllocError;
use std::fmt::Write as _;
use std::io::Write;
use std::slice;

/// Whether several files are sent.
pub(crate) fn are_several(sources: &[Source]) -> bool
    ensures { result ≡ are_several sources.now }
{
    sources.len() > 1
}

/// Adds what a line about this file begins with.
pub(crate) fn push_label(
    text: &mut String,
    several: bool,
    source: &Source,
) -> Result<(), AllocError>
    ensures { OnOk result (string_bytes text.new ≡ string_bytes text.old ++ label_of several source.now) }
{
    match (several, source) {
        (false, _) => Ok(()),
        (true, Source::Standard) => text.push_str("standard input: "),
        (true, Source::Named(name)) => write!(text, "{name}: "),
    }
}

/// The name of a file, as `report` takes it: standard input has none.
pub(crate) fn names_of(source: &Source) -> &[String]
    ensures { map string_bytes result.now ≡ names_of source.now }
{
    match source {
        Source::Standard => &[],
        Source::Named(name) => slice::from_ref(name),
    }
}

/// The name of a file.
pub(crate) fn name_of(source: &Source) -> &str
    ensures { result.now ≡ name_of source.now }
{
    match source {
        Source::Standard => "standard input",
        Source::Named(name) => name.as_str(),
    }
}

// Reports a fault of a file that is one of several, and returns the status.
fn report_named<E: Write>(fault: ToolFault, source: &Source, errors: &mut E) -> u8
    ensures status { result ≡ status_of fault }
    ensures printed { Printed (file_fault_lines true source.now fault) (E.contents errors.old) (E.contents errors.new) }
{
    if let ToolFault::Unreadable { .. } = fault {
        return report(fault, names_of(source), errors);
    }
    print_about(name_of(source), fault, errors);
    fault.status()
}

/// Reports why a file was not sent, as `report` does, and returns the status. One of several is named.
pub(crate) fn report_file_fault<E: Write>(
    fault: ToolFault,
    several: bool,
    source: &Source,
    errors: &mut E,
) -> u8
    ensures status { result ≡ status_of fault }
    ensures printed { Printed (file_fault_lines several source.now fault) (E.contents errors.old) (E.contents errors.new) }
{
    if several {
        report_named(fault, source, errors)
    } else {
        report(fault, names_of(source), errors)
    }
}

/// The same of a fault in a transfer over this wire, with what the server or the system said in a second line.
pub(crate) fn report_unsent<N: TransferWire, E: Write>(
    fault: ToolFault,
    wire: &N,
    several: bool,
    source: &Source,
    errors: &mut E,
) -> u8
    ensures status { result ≡ status_of fault }
    ensures printed { ReportsTransfer (file_fault_lines several source.now fault) fault (N.refusal_of wire.now) (N.reached_of wire.now) (E.contents errors.old) (E.contents errors.new) }
{
    let status = report_file_fault(fault, several, source, errors);
    report_more(fault, wire, errors);
    status
}

/// Like `report_unsent`, but reports nothing if the file was sent.
pub(crate) fn finish_sent<N: TransferWire, E: Write>(
    done: Result<(), ToolFault>,
    wire: &N,
    several: bool,
    source: &Source,
    errors: &mut E,
) -> u8
    ensures status { result ≡ answer_status done }
    ensures few { result ≤ 4 }
    ensures silent { result ≡ 0 → errors.new ≡ errors.old }
    ensures printed { ReportsSent several source.now done (N.refusal_of wire.now) (N.reached_of wire.now) (E.contents errors.old) (E.contents errors.new) }
{
    match done {
        Ok(()) => DONE,
        Err(fault) => report_unsent(fault, wire, several, source, errors),
    }
}
