//! The file that a command writes in place of standard output.

ghost use Rattle.std.specs.Prelude.{◌≡◌, ◌≤◌, false, None, Some, OnOk, OnErr, IfSome, IfNone, option_map, string_bytes};
ghost use Rattle.clap.specs.Words.{rule_of};
ghost use Rattle.system_files.specs.Files.{Keeps};
ghost use Rattle.show_commands.specs.Output.{Replaces, Saves, output_rule};
ghost use Rattle.show_commands.specs.Reporting.{ReportsSave};

use byte_output::put;
use clap::Arg;
use command_line::{DONE, ToolFault, USAGE, report, report_file};
use std::alloc::Global;
use std::io;
use std::io::Write;
use system_files::FileSystem;

/// `-o FILE`: the file that a command writes in place of standard output.
pub fn output_argument<'a>(alloc: Global) -> Arg<'a>
    ensures rule { rule_of result ≡ output_rule }
    ensures local { result.global ≡ false }
{
    Arg::new(alloc, "output")
        .short('o')
        .long("output")
        .value_name("FILE")
        .help("Write this file, whole or not at all, and not standard output")
}

/// The name of the file, if one was given.
pub fn output_name(output: &Option<String>) -> Option<&str>
    ensures some { IfSome result (λ name. option_map string_bytes output.now ≡ Some name.now) }
    ensures none { IfNone result (output.now ≡ None) }
{
    match output {
        Some(name) => Some(name.as_str()),
        None => None,
    }
}

/// Reports that a solution file is not written to a terminal, and returns the status.
pub fn refuse_terminal<E: Write>(errors: &mut E) -> u8
    ensures { result ≡ 1 }
{
    let _ = writeln!(
        errors,
        "tws: a solution file is not written to a terminal; -o FILE writes it to a file"
    );
    USAGE
}

// Puts a text in place of what the file of this name has. On an error every file stays as it was; what the system says of it
// is returned, if it is known.
fn replace<S: FileSystem>(system: &mut S, name: &str, text: &[u8]) -> Result<(), Option<io::Error>>
    ensures replaced { OnOk result (Replaces name.now text.now (S.drafted_of system.old name.now) (S.bytes_of system.old) (S.bytes_of system.new)) }
    ensures kept { OnErr result (Keeps (S.bytes_of system.old) (S.bytes_of system.new)) }
{
    let mut draft = match system.begin(name) {
        Ok(draft) => draft,
        Err(cause) => return Err(Some(cause)),
    };
    match put(&mut draft, text) {
        Ok(()) => match system.publish(name, draft) {
            Ok(()) => Ok(()),
            Err(cause) => Err(Some(cause)),
        },
        Err(_) => Err(system.abandon(draft)),
    }
}

/// Ends a run that has made a text for the file of this name, with this status: if the text was made, the file is replaced by
/// it, whole or not at all. Returns the exit status: 2 if the file could not be written, which goes to `errors`.
pub fn save<S: FileSystem, E: Write>(
    made: u8,
    system: &mut S,
    name: &str,
    text: &[u8],
    errors: &mut E,
) -> u8
    ensures saved { Saves name.now text.now made result (S.drafted_of system.old name.now) (S.bytes_of system.old) (S.bytes_of system.new) }
    ensures silent { result ≡ 0 → errors.new ≡ errors.old }
    ensures printed { ReportsSave name.now (E.contents errors.old) (E.contents errors.new) }
{
    if made != DONE {
        return made;
    }
    match replace(system, name, text) {
        Ok(()) => DONE,
        Err(Some(cause)) => report_file(ToolFault::Write, name, &cause, errors),
        Err(None) => report(ToolFault::Write, &[], errors),
    }
}
