//! Reports of why a command failed, and its exit status.

ghost use Rattle.std.specs.Prelude.{◌≡◌, ◌⊎◌, ◌≤◌, map, string_bytes};
ghost use Rattle.command_line.specs.Faults.{status_of, answer_status};
ghost use Rattle.command_line.specs.Printing.{Printed, PrintsCause, Reports, ReportsArguments, ReportsFile, name_in, report_lines, unreadable_lines};

use crate::printing::{print_about, print_words};
use crate::status::{DONE, FAILED, USAGE};
use crate::tool_fault::ToolFault;
use crate::unreadable::Unreadable;
use arrayvec::ArrayString;
use std::fmt::Write as _;
use std::io;
use std::io::Write;
use tws_file::{FileFault, InWords};

// The name of the input with this index.
fn name_in(names: &[String], index: usize) -> &str
    ensures { result.now ≡ name_in (map string_bytes names.now) index }
{
    if index >= names.len() {
        return "standard input";
    }
    names[index].as_str()
}

// Prints why the input of this name is no solution file, and then the same in words.
fn print_unreadable<E: Write>(name: &str, fault: FileFault, errors: &mut E)
    ensures { Printed (unreadable_lines name.now fault) (E.contents errors.old) (E.contents errors.new) }
{
    print_about(name, Unreadable(fault), errors);
    print_about(name, InWords(fault), errors);
}

// Prints why a command failed.
fn print_report<E: Write>(fault: ToolFault, names: &[String], errors: &mut E)
    ensures { Printed (report_lines fault (map string_bytes names.now)) (E.contents errors.old) (E.contents errors.new) }
{
    match fault {
        ToolFault::Unreadable { index, fault } => {
            print_unreadable(name_in(names, index), fault, errors);
        }
        fault => print_words(fault, errors),
    }
}

/// Reports why a command failed, and returns the status. What is wrong with an unreadable input is said in words on a second
/// line. `names` are the names of the inputs; an input without a name is standard input.
pub fn report<E: Write>(fault: ToolFault, names: &[String], errors: &mut E) -> u8
    ensures status { result ≡ status_of fault }
    ensures printed { Printed (report_lines fault (map string_bytes names.now)) (E.contents errors.old) (E.contents errors.new) }
{
    print_report(fault, names, errors);
    fault.status()
}

/// Reports why a command failed, if it did, and returns the status.
pub fn finish<E: Write>(done: Result<(), ToolFault>, names: &[String], errors: &mut E) -> u8
    ensures status { result ≡ answer_status done }
    ensures few { result ≤ 4 }
    ensures silent { result ≡ 0 → errors.new ≡ errors.old }
    ensures printed { Reports (map string_bytes names.now) done (E.contents errors.old) (E.contents errors.new) }
{
    match done {
        Ok(()) => DONE,
        Err(fault) => report(fault, names, errors),
    }
}

// What the system says of an error, without the number that it has for it.
fn without_code(text: &str) -> &str {
    match text.split_once(" (os error ") {
        Some((message, _)) => message,
        None => text,
    }
}

// How many bytes of a cause are printed at most.
const CAUSE: usize = 256;

/// Prints what the system said of the file or stream of this name, in a line of its own. Returns the status that it is
/// given.
pub fn report_cause<E: Write>(status: u8, name: &str, cause: &io::Error, errors: &mut E) -> u8
    ensures status { result ≡ status }
    ensures printed { PrintsCause name.now (E.contents errors.old) (E.contents errors.new) }
{
    let mut text = ArrayString::<CAUSE>::new();
    // What does not fit is left out.
    let _ = write!(text, "{cause}");
    print_about(name, without_code(text.as_str()), errors);
    status
}

/// Reports a fault of the file of this name, with the system's cause in a second line, and returns the status.
pub fn report_file<E: Write>(fault: ToolFault, name: &str, cause: &io::Error, errors: &mut E) -> u8
    ensures status { result ≡ status_of fault }
    ensures printed { ReportsFile fault name.now (E.contents errors.old) (E.contents errors.new) }
{
    report_cause(report(fault, &[], errors), name, cause, errors)
}

/// Reports why the process's arguments could not be read, and returns the status: that of a usage error for one that is not
/// UTF-8.
pub fn report_arguments<E: Write>(error: &io::Error, errors: &mut E) -> u8
    ensures few { (result ≡ 1) ⊎ (result ≡ 2) }
    ensures printed { ReportsArguments result (E.contents errors.old) (E.contents errors.new) }
{
    match error.kind() {
        io::ErrorKind::OutOfMemory => {
            print_words("out of memory", errors);
            FAILED
        }
        _ => {
            print_words("an argument is not UTF-8", errors);
            USAGE
        }
    }
}
