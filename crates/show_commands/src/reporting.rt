//! Reports of why a command of several inputs failed, and its exit status.

ghost use Rattle.std.specs.Prelude.{◌≡◌, IfSome, map, slice_get, string_bytes};
ghost use Rattle.command_line.specs.Faults.{answer_status};
ghost use Rattle.show_commands.specs.Reporting.{IsUnread, ReportsAmong, ReportsUnread, names_of};

use crate::input_file::InputFile;
use command_line::{DONE, Source, ToolFault, report, report_file};
use either::Either;
use std::io::Write;
use std::{io, slice};
use system_files::FileSystem;

// The names of the input with this index, as `report` takes them: standard input has none.
fn names_at(sources: &[Source], index: usize) -> &[String]
    ensures { map string_bytes result.now ≡ names_of (slice_get sources.now index) }
{
    match sources.get(index) {
        Some(Source::Named(name)) => slice::from_ref(name),
        _ => &[],
    }
}

// The name of the first of these files that could not be read on, if one could not, and what the system said.
fn unread<'a, S: FileSystem>(
    inputs: &'a [Either<InputFile<'_, S>, &[u8]>],
) -> Option<(&'a str, io::Error)>
    ensures { IfSome result (λ found. IsUnread inputs.now found.0.now) }
{
    for input in inputs {
        if let Either::Left(file) = input {
            if let Some(cause) = file.error() {
                return Some((file.name(), cause));
            }
        }
    }
    None
}

// Reports that an input could not be read: if the system said why, by the name of that file.
fn report_unread<S: FileSystem, E: Write>(
    inputs: &[Either<InputFile<'_, S>, &[u8]>],
    errors: &mut E,
) -> u8
    ensures status { result ≡ 2 }
    ensures printed { ReportsUnread inputs.now (E.contents errors.old) (E.contents errors.new) }
{
    match unread(inputs) {
        Some((name, cause)) => report_file(ToolFault::Read, name, &cause, errors),
        None => report(ToolFault::Read, &[], errors),
    }
}

/// Reports why a command over these inputs failed, if it did, and returns the status.
pub(crate) fn finish_among<S: FileSystem, E: Write>(
    done: Result<(), ToolFault>,
    sources: &[Source],
    inputs: &[Either<InputFile<'_, S>, &[u8]>],
    errors: &mut E,
) -> u8
    ensures status { result ≡ answer_status done }
    ensures silent { result ≡ 0 → errors.new ≡ errors.old }
    ensures printed { ReportsAmong sources.now inputs.now done (E.contents errors.old) (E.contents errors.new) }
{
    match done {
        Ok(()) => DONE,
        Err(ToolFault::Read) => report_unread(inputs, errors),
        Err(ToolFault::Unreadable { index, fault }) => {
            let first = ToolFault::Unreadable { index: 0, fault };
            report(first, names_at(sources, index), errors)
        }
        Err(fault) => report(fault, &[], errors),
    }
}
