//! What is printed for arguments that have a fault or ask for help.

ghost use Rattle.std.specs.Prelude.{◌≡◌, ◌≤◌, OnOk, IfErr};
ghost use Rattle.command_line.specs.Help.{Explained, HelpFails, NoJobRan, WritesHelp};
ghost use Rattle.command_line.specs.Printing.{Explains};

use crate::job_fault::JobFault;
use crate::reporting::{finish, report};
use crate::status::USAGE;
use crate::tool_fault::ToolFault;
use byte_output::put;
use std::alloc::Global;
use std::io::Write;

// Writes the help text, with its last line ended.
fn write_help<W: Write>(alloc: Global, error: &clap::Error, out: &mut W) -> Result<(), ToolFault>
    ensures written { OnOk result (WritesHelp (W.contents out.old) (W.contents out.new)) }
    ensures fails { IfErr result (HelpFails (W.contents out.old) (W.contents out.new)) }
{
    let text = format!(in alloc; "{error}")?;
    let mut page = String::from_str(alloc, text.trim_end())?;
    page.push_str("\n")?;
    put(out, page.as_bytes())?;
    Ok(())
}

// Prints help, or reports what is wrong with the arguments, and returns the status.
fn explain<W: Write, E: Write>(
    alloc: Global,
    error: &clap::Error,
    out: &mut W,
    errors: &mut E,
) -> u8
    ensures explained { Explained error.now result (W.contents out.old) (W.contents out.new) }
    ensures usage { result ≡ 1 → out.new ≡ out.old }
    ensures silent { result ≡ 0 → errors.new ≡ errors.old }
{
    if error.use_stderr() {
        let _ = write!(errors, "{error}");
        return USAGE;
    }
    finish(write_help(alloc, error, out), &[], errors)
}

/// Prints the help that the arguments ask for, or reports why they ask for no job, and returns the exit status.
pub fn report_job_fault<W: Write, E: Write>(
    alloc: Global,
    fault: &JobFault,
    out: &mut W,
    errors: &mut E,
) -> u8
    ensures ran { NoJobRan fault.now result (W.contents out.old) (W.contents out.new) }
    ensures usage { result ≡ 1 → out.new ≡ out.old }
    ensures few { result ≤ 2 }
    ensures silent { result ≡ 0 → errors.new ≡ errors.old }
    ensures printed { Explains fault.now (E.contents errors.old) (E.contents errors.new) }
{
    match fault {
        JobFault::Words(error) => explain(alloc, error, out, errors),
        JobFault::Memory => report(ToolFault::Memory, &[], errors),
    }
}
