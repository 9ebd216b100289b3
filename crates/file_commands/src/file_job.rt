//! The list of the commands on files: what the arguments of one ask for, and how that is done.

ghost use Rattle.std.specs.Prelude.{◌≡◌, ◌≢◌, ◌≤◌, ℕ, List, [], Some, None, IfOk, IfSome, IfNone};
ghost use Rattle.clap.specs.Matches.{found_of};
ghost use Rattle.clap.specs.Words.{app_of, rows_of};
ghost use Rattle.command_line.specs.Arguments.{Answers};
ghost use Rattle.show_commands.specs.Output.{Saves};
ghost use Rattle.file_commands.specs.FileJobs.{AsksForFileJob, FileJobRan, FileJobRuns, FileJobSaid, files_app, output_of, spills};

use crate::best::BestArguments;
use crate::compare::CompareArguments;
use crate::page::PageArguments;
use crate::without::WithoutArguments;
use crate::{best, compare, page, without};
use clap::{ArgMatches, Command};
use command_line::add_command;
use show_commands::{
    PackArguments, ShowArguments, output_name, pack, refuse_terminal, save, show, show_program,
};
use std::alloc::{AllocError, Global};
use std::io::{Read, Write};
use system_files::FileSystem;

/// What a command on files is asked to do.
#[derive(Drop)]
pub enum FileJob {
    /// To list solution files, or to write their solutions as comma-separated values.
    Show(ShowArguments),
    /// To write a solution file with its moves in the fewest bytes.
    Pack(PackArguments),
    /// To write a solution file without the solutions of a level.
    Without(WithoutArguments),
    /// To write the collection of the best solutions of several files.
    Best(BestArguments),
    /// To compare two solution files.
    Compare(CompareArguments),
    /// To write the solutions of several files as a page of HTML.
    Page(PageArguments),
}

impl FileJob {
    /// The name of the file that is written in place of standard output, if one was given.
    pub fn output(&self) -> Option<&str>
        ensures some { IfSome result (λ name. output_of self.now ≡ Some name.now) }
        ensures none { IfNone result (output_of self.now ≡ None) }
    {
        match self {
            FileJob::Show(arguments) => output_name(&arguments.output),
            FileJob::Pack(arguments) => output_name(&arguments.output),
            FileJob::Without(arguments) => output_name(&arguments.output),
            FileJob::Best(arguments) => output_name(&arguments.output),
            FileJob::Compare(arguments) => output_name(&arguments.output),
            FileJob::Page(arguments) => output_name(&arguments.output),
        }
    }

    // Whether it would write a solution file to a terminal, if standard output is one.
    fn spills(&self, to_terminal: bool) -> bool
        ensures { result ≡ spills to_terminal self.now }
    {
        match self {
            FileJob::Show(_) => false,
            FileJob::Pack(_) => to_terminal,
            FileJob::Without(_) => to_terminal,
            FileJob::Best(_) => to_terminal,
            FileJob::Compare(arguments) => arguments.better && to_terminal,
            FileJob::Page(_) => false,
        }
    }
}

/// The command line of the program with only the commands on files, in the order of the help, and these names of the rulesets.
///
/// # Errors
///
/// Out of memory.
pub fn file_program<'a>(alloc: Global, names: &'a [&'a str]) -> Result<Command<'a>, AllocError>
    ensures { IfOk result (λ command. app_of command ≡ files_app names.entry) }
{
    let program = add_command(show_program(alloc), without::command(alloc));
    let program = add_command(program, best::command(alloc, names));
    let program = add_command(program, compare::command(alloc));
    add_command(program, page::command(alloc))
}

/// What the arguments of the command on files of this name ask for; `None` if they ask for nothing, or it is no such command.
///
/// # Errors
///
/// Out of memory.
pub fn file_job_of(
    alloc: Global,
    name: &str,
    words: &ArgMatches,
) -> Result<Option<FileJob>, AllocError>
    ensures { IfOk result (Answers (AsksForFileJob (name.now, rows_of (found_of words.now)))) }
{
    match name {
        "show" => Ok(Some(FileJob::Show(show::asked(alloc, words)?))),
        "pack" => Ok(Some(FileJob::Pack(pack::asked(alloc, words)?))),
        "without" => Ok(without::asked(alloc, words)?.map(FileJob::Without)),
        "best" => Ok(best::asked(alloc, words)?.map(FileJob::Best)),
        "compare" => Ok(compare::asked(alloc, words)?.map(FileJob::Compare)),
        "page" => Ok(Some(FileJob::Page(page::asked(alloc, words)?))),
        _ => Ok(None),
    }
}

// Does a job, with its text to this output, and returns the exit status.
fn write_file_job<S: FileSystem, R: Read, W: Write, E: Write>(
    system: &S,
    alloc: Global,
    job: &FileJob,
    input: &mut R,
    out: &mut W,
    errors: &mut E,
) -> u8
    ensures ran { FileJobRan (S.below_of system.now) (S.bytes_of system.now) (input.new ≡ input.old) job.now result (R.remaining input.old) (R.remaining input.new) (W.contents out.old) (W.contents out.new) }
    ensures usage { result ≡ 1 → (input.new ≡ input.old) × (out.new ≡ out.old) }
    ensures few { result ≤ 3 }
    ensures unreadable { result ≡ 3 → out.new ≡ out.old }
    ensures said { result ≡ 0 → FileJobSaid (S.below_of system.now) (S.bytes_of system.now) (R.remaining input.old) (errors.new ≡ errors.old) job.now (E.contents errors.old) (E.contents errors.new) }
{
    match job {
        FileJob::Show(arguments) => show::run(system, alloc, arguments, input, out, errors),
        FileJob::Pack(arguments) => pack::run(system, alloc, arguments, input, out, errors),
        FileJob::Without(arguments) => without::run(system, alloc, arguments, input, out, errors),
        FileJob::Best(arguments) => best::run(system, alloc, arguments, input, out, errors),
        FileJob::Compare(arguments) => compare::run(system, alloc, arguments, out, errors),
        FileJob::Page(arguments) => page::run(system, alloc, arguments, input, out, errors),
    }
}

// Does a job, with its text into the file of this name, and returns the exit status.
fn run_into_file<S: FileSystem, R: Read, E: Write>(
    system: &mut S,
    alloc: Global,
    job: &FileJob,
    name: &str,
    input: &mut R,
    errors: &mut E,
) -> u8
    ensures ran { (made : ℕ) × (text : List ℕ) × FileJobRan (S.below_of system.old) (S.bytes_of system.old) (input.new ≡ input.old) job.now made (R.remaining input.old) (R.remaining input.new) (Some []) (Some text) × Saves name.now text made result (S.drafted_of system.old name.now) (S.bytes_of system.old) (S.bytes_of system.new) }
    ensures usage { result ≡ 1 → input.new ≡ input.old }
    ensures few { result ≤ 3 }
    ensures said { result ≡ 0 → FileJobSaid (S.below_of system.old) (S.bytes_of system.old) (R.remaining input.old) (errors.new ≡ errors.old) job.now (E.contents errors.old) (E.contents errors.new) }
{
    let mut text = Vec::new(alloc);
    let made = write_file_job(system, alloc, job, input, &mut text, errors);
    save(made, system, name, &text, errors)
}

/// Does a job, and returns the exit status: 0 if all was done, 1 for a usage error, such as a solution file that would be
/// written to a terminal, as `out` is if `to_terminal` is set, 2 if reading, writing or memory failed, 3 for an input that is
/// not a solution file. A fault goes to `errors`, and before it, or at status 0 alone, what the command says. A file is opened, or replaced, by its name in `system`.
pub fn run_file_job<S: FileSystem, R: Read, W: Write, E: Write>(
    system: &mut S,
    alloc: Global,
    job: &FileJob,
    to_terminal: bool,
    input: &mut R,
    out: &mut W,
    errors: &mut E,
) -> u8
    ensures ran { FileJobRuns to_terminal (S.below_of system.old) (S.bytes_of system.old) (S.drafted_of system.old) (S.bytes_of system.new) (input.new ≡ input.old) (out.new ≡ out.old) job.now result (R.remaining input.old) (R.remaining input.new) (W.contents out.old) (W.contents out.new) }
    // The clauses below hold also for readers and writers without ghost contents.
    ensures usage { result ≡ 1 → (input.new ≡ input.old) × (out.new ≡ out.old) }
    ensures few { result ≤ 3 }
    ensures unreadable { result ≡ 3 → out.new ≡ out.old }
    ensures said { result ≡ 0 → FileJobSaid (S.below_of system.old) (S.bytes_of system.old) (R.remaining input.old) (errors.new ≡ errors.old) job.now (E.contents errors.old) (E.contents errors.new) }
{
    if let Some(name) = job.output() {
        return run_into_file(system, alloc, job, name, input, errors);
    }
    if job.spills(to_terminal) {
        return refuse_terminal(errors);
    }
    write_file_job(system, alloc, job, input, out, errors)
}
