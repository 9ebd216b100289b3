//! The program with only the commands here, except where its arguments and streams come from.

ghost use Rattle.std.specs.Prelude.{◌≡◌, ◌≤◌, Err, IfErr, IfOk, Result, map, string_bytes};
ghost use Rattle.command_line.specs.declared.job_fault.JobFault.{JobFault};
ghost use Rattle.show_commands.specs.declared.show_job.ShowJob.{ShowJob};
ghost use Rattle.show_commands.specs.ShowJobs.{AnswersShowWords, FindsShowCommand, ShowWordsRan};

use crate::show_job::{ShowJob, run_show_job, show_job_of, show_program};
use clap::ArgMatches;
use command_line::{JobFault, found_in, report_job_fault, unknown_command};
use std::alloc::Global;
use std::io::{Read, Write};
use system_files::FileSystem;

// What the arguments find in the command line. The first of them is the program's name.
fn found<'a>(alloc: Global, words: &'a [String]) -> Result<ArgMatches<'a>, JobFault>
    ensures found { IfOk result (FindsShowCommand (map string_bytes words.now)) }
    ensures refused { IfErr result (λ why. AnswersShowWords (map string_bytes words.now) (Err why)) }
{
    found_in(show_program(alloc)?, words)
}

// What the arguments ask for.
fn job_in(alloc: Global, words: &[String]) -> Result<ShowJob, JobFault>
    ensures { AnswersShowWords (map string_bytes words.now) result }
{
    let found = found(alloc, words)?;
    if let Some((name, words)) = found.subcommand() {
        if let Some(job) = show_job_of(alloc, name, words)? {
            return Ok(job);
        }
    }
    Err(unknown_command(show_program(alloc)?))
}

/// Does what the arguments ask for, and returns the exit status, which is that of `run_show_job` for a job, 0 also for help,
/// whose text goes to `out`, and 1 for a usage error. The first argument is the program's name; `to_terminal` says whether
/// `out` is a terminal. A fault goes to `errors`, on one line or two.
pub fn run_show_words<S: FileSystem, R: Read, W: Write, E: Write>(
    system: &mut S,
    alloc: Global,
    words: &[String],
    to_terminal: bool,
    input: &mut R,
    out: &mut W,
    errors: &mut E,
) -> u8
    // The job is the one that the arguments ask for, with the files that they name.
    ensures ran { (job : Result ShowJob JobFault) × AnswersShowWords (map string_bytes words.now) job × ShowWordsRan to_terminal (S.bytes_of system.old) (S.drafted_of system.old) (S.bytes_of system.new) (input.new ≡ input.old) (out.new ≡ out.old) job result (R.remaining input.old) (R.remaining input.new) (W.contents out.old) (W.contents out.new) }
    ensures usage { result ≡ 1 → (input.new ≡ input.old) × (out.new ≡ out.old) }
    ensures few { result ≤ 3 }
    ensures unreadable { result ≡ 3 → out.new ≡ out.old }
    ensures silent { result ≡ 0 → errors.new ≡ errors.old }
{
    match job_in(alloc, words) {
        Ok(job) => run_show_job(system, alloc, &job, to_terminal, input, out, errors),
        Err(fault) => report_job_fault(alloc, &fault, out, errors),
    }
}
