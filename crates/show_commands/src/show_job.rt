//! The list of the commands here: their command line, what the arguments of one ask for, and how that is done.

ghost use Rattle.std.specs.Prelude.{◌≡◌, ◌≢◌, ◌≤◌, ℕ, List, [], Some, None, IfOk, IfSome, IfNone};
ghost use Rattle.clap.specs.Matches.{found_of};
ghost use Rattle.clap.specs.Words.{app_of, rows_of};
ghost use Rattle.command_line.specs.Arguments.{Answers};
ghost use Rattle.show_commands.specs.Output.{Saves};
ghost use Rattle.show_commands.specs.ShowJobs.{AsksToShowFile, ShowJobRan, ShowJobRuns, output_of, shows_app, spills};

use crate::output::{output_name, refuse_terminal, save};
use crate::pack::PackArguments;
use crate::show::ShowArguments;
use crate::{pack, show};
use clap::{ArgMatches, Command};
use command_line::{add_command, new_program};
use std::alloc::{AllocError, Global};
use std::io::{Read, Write};
use system_files::FileSystem;

/// What a command here is asked to do.
#[derive(Drop)]
pub enum ShowJob {
    /// To list solution files, or to write their solutions as comma-separated values.
    Show(ShowArguments),
    /// To write a solution file with its moves in the fewest bytes.
    Pack(PackArguments),
}

impl ShowJob {
    /// The name of the file that is written in place of standard output, if one was given.
    pub fn output(&self) -> Option<&str>
        ensures some { IfSome result (λ name. output_of self.now ≡ Some name.now) }
        ensures none { IfNone result (output_of self.now ≡ None) }
    {
        match self {
            ShowJob::Show(arguments) => output_name(&arguments.output),
            ShowJob::Pack(arguments) => output_name(&arguments.output),
        }
    }

    // Whether it would write a solution file to a terminal, if standard output is one.
    fn spills(&self, to_terminal: bool) -> bool
        ensures { result ≡ spills to_terminal self.now }
    {
        match self {
            ShowJob::Show(_) => false,
            ShowJob::Pack(_) => to_terminal,
        }
    }
}

/// The command line of the program with only these commands: `show` and `pack`, in this order.
///
/// # Errors
///
/// Out of memory.
pub fn show_program<'a>(alloc: Global) -> Result<Command<'a>, AllocError>
    ensures { IfOk result (λ command. app_of command ≡ shows_app) }
{
    let program = add_command(Ok(new_program(alloc)), show::command(alloc));
    add_command(program, pack::command(alloc))
}

/// What the arguments of the command of this name ask for; `None` if no command here has this name.
///
/// # Errors
///
/// Out of memory.
pub fn show_job_of(
    alloc: Global,
    name: &str,
    words: &ArgMatches,
) -> Result<Option<ShowJob>, AllocError>
    ensures { IfOk result (Answers (AsksToShowFile (name.now, rows_of (found_of words.now)))) }
{
    match name {
        "show" => Ok(Some(ShowJob::Show(show::asked(alloc, words)?))),
        "pack" => Ok(Some(ShowJob::Pack(pack::asked(alloc, words)?))),
        _ => Ok(None),
    }
}

// Does what a command is asked for, with its text to this output, and returns the exit status.
fn write_show_job<S: FileSystem, R: Read, W: Write, E: Write>(
    system: &S,
    alloc: Global,
    job: &ShowJob,
    input: &mut R,
    out: &mut W,
    errors: &mut E,
) -> u8
    ensures ran { ShowJobRan (S.bytes_of system.now) (input.new ≡ input.old) job.now result (R.remaining input.old) (R.remaining input.new) (W.contents out.old) (W.contents out.new) }
    // The clauses below hold also for readers and writers without ghost contents.
    ensures usage { result ≢ 1 }
    ensures few { result ≤ 3 }
    ensures unreadable { result ≡ 3 → out.new ≡ out.old }
    ensures silent { result ≡ 0 → errors.new ≡ errors.old }
{
    match job {
        ShowJob::Show(arguments) => show::run(system, alloc, arguments, input, out, errors),
        ShowJob::Pack(arguments) => pack::run(system, alloc, arguments, input, out, errors),
    }
}

// Does what a command is asked for, with its text into the file of this name, and returns the exit status.
fn run_into_file<S: FileSystem, R: Read, E: Write>(
    system: &mut S,
    alloc: Global,
    job: &ShowJob,
    name: &str,
    input: &mut R,
    errors: &mut E,
) -> u8
    ensures ran { (made : ℕ) × (text : List ℕ) × ShowJobRan (S.bytes_of system.old) (input.new ≡ input.old) job.now made (R.remaining input.old) (R.remaining input.new) (Some []) (Some text) × Saves name.now text made result (S.drafted_of system.old name.now) (S.bytes_of system.old) (S.bytes_of system.new) }
    ensures usage { result ≢ 1 }
    ensures few { result ≤ 3 }
    ensures silent { result ≡ 0 → errors.new ≡ errors.old }
{
    let mut text = Vec::new(alloc);
    let made = write_show_job(system, alloc, job, input, &mut text, errors);
    save(made, system, name, &text, errors)
}

/// Does what a command is asked for, and returns the exit status: 0 if all was done, 1 if it would write a solution file to a
/// terminal, as `out` is if `to_terminal` is set, 2 if reading, writing or memory failed, 3 for an input that is not a solution
/// file. A fault goes to `errors`. A file is opened, or replaced, by its name in `system`.
pub fn run_show_job<S: FileSystem, R: Read, W: Write, E: Write>(
    system: &mut S,
    alloc: Global,
    job: &ShowJob,
    to_terminal: bool,
    input: &mut R,
    out: &mut W,
    errors: &mut E,
) -> u8
    ensures ran { ShowJobRuns to_terminal (S.bytes_of system.old) (S.drafted_of system.old) (S.bytes_of system.new) (input.new ≡ input.old) (out.new ≡ out.old) job.now result (R.remaining input.old) (R.remaining input.new) (W.contents out.old) (W.contents out.new) }
    // The clauses below hold also for readers and writers without ghost contents.
    ensures usage { result ≡ 1 → (input.new ≡ input.old) × (out.new ≡ out.old) }
    ensures few { result ≤ 3 }
    ensures unreadable { result ≡ 3 → out.new ≡ out.old }
    ensures silent { result ≡ 0 → errors.new ≡ errors.old }
{
    if let Some(name) = job.output() {
        return run_into_file(system, alloc, job, name, input, errors);
    }
    if job.spills(to_terminal) {
        return refuse_terminal(errors);
    }
    write_show_job(system, alloc, job, input, out, errors)
}
