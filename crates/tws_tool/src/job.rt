//! The list of all commands: the command line of the program, what the arguments of a command ask for, and how that is done.

ghost use Rattle.std.specs.Prelude.{◌≡◌, ◌≤◌, Ok, IfOk};
ghost use Rattle.clap.specs.Matches.{found_of};
ghost use Rattle.clap.specs.Words.{app_of, rows_of};
ghost use Rattle.command_line.specs.Arguments.{Answers};
ghost use Rattle.tws_tool.specs.Jobs.{AsksFor, JobRuns, JobSaid, tws_app};

use crate::serving;
use archive_commands::{
    GetArguments, Network, PutArguments, Resolver, SyncArguments, get, put, sync,
};
use archive_serving::{ServeArguments, serve};
use clap::{ArgMatches, Command};
use command_line::add_command;
use file_commands::{FileJob, file_job_of, file_program, run_file_job};
use std::alloc::{AllocError, Global};
use std::fs::File;
use std::io::{Read, Write};
use std::net::Net;
use std::random::RandomSource;
use std::rt::Files;
use std::time::Clock;
use system_files::FileSystem;

/// What the program is asked to do.
#[derive(Drop)]
pub enum Job {
    /// What a command on files is asked to do.
    Files(FileJob),
    /// To serve the archive.
    Serve(ServeArguments),
    /// To send a solution file to an archive.
    Put(PutArguments),
    /// To fetch a collection from an archive.
    Get(GetArguments),
    /// To bring what is better in one archive to another.
    Sync(SyncArguments),
}

/// The command line of the program, with these names of the rulesets.
pub(crate) fn command<'a>(alloc: Global, names: &'a [&'a str]) -> Result<Command<'a>, AllocError>
    ensures { IfOk result (λ command. app_of command ≡ tws_app names.entry) }
{
    let program = add_command(file_program(alloc, names), serve::command(alloc));
    let program = add_command(program, put::command(alloc));
    let program = add_command(program, get::command(alloc, names));
    add_command(program, sync::command(alloc))
}

/// What the arguments of the command of this name ask for; `None` if they ask for nothing, or there is no such command.
pub(crate) fn asked(
    alloc: Global,
    name: &str,
    words: &ArgMatches,
) -> Result<Option<Job>, AllocError>
    ensures { IfOk result (Answers (AsksFor (name.now, rows_of (found_of words.now)))) }
{
    if let Some(files) = file_job_of(alloc, name, words)? {
        return Ok(Some(Job::Files(files)));
    }
    match name {
        "serve" => Ok(serve::asked(alloc, words)?.map(Job::Serve)),
        "put" => Ok(put::asked(alloc, words)?.map(Job::Put)),
        "get" => Ok(get::asked(alloc, words)?.map(Job::Get)),
        "sync" => Ok(sync::asked(alloc, words)?.map(Job::Sync)),
        _ => Ok(None),
    }
}

/// Does a job, and returns the status. Only `put`, `get` and `sync` need a wire of `network`. `to_terminal` says whether `out` is a
/// terminal.
pub(crate) fn run_job<
    S: FileSystem + Resolver,
    N: Network,
    P: Files<File = File> + Net + Clock + RandomSource + Eprint + AllocGlobal + Copy,
    R: Read,
    W: Write,
    E: Write,
>(
    system: &mut S,
    network: &mut N,
    rt: P,
    alloc: Global,
    job: &Job,
    to_terminal: bool,
    input: &mut R,
    out: &mut W,
    errors: &mut E,
) -> u8
    ensures ran { JobRuns to_terminal (record { bytes_of = S.bytes_of system.old; drafted_of = S.drafted_of system.old; below_of = S.below_of system.old; host_of = S.host_of system.old }) (S.bytes_of system.new) (input.new ≡ input.old) (out.new ≡ out.old) (N.first_calls network.old) (Ok job.now) result (R.remaining input.old) (R.remaining input.new) (W.contents out.old) (W.contents out.new) }
    ensures usage { result ≡ 1 → (input.new ≡ input.old) × (out.new ≡ out.old) }
    ensures status { result ≤ 4 }
    ensures unreadable { result ≡ 3 → out.new ≡ out.old }
    ensures said { result ≡ 0 → JobSaid (record { bytes_of = S.bytes_of system.old; drafted_of = S.drafted_of system.old; below_of = S.below_of system.old; host_of = S.host_of system.old }) (R.remaining input.old) (errors.new ≡ errors.old) (Ok job.now) (E.contents errors.old) (E.contents errors.new) }
{
    match job {
        Job::Files(files) => { run_file_job(system, alloc, files, to_terminal, input, out, errors) }
        Job::Serve(arguments) => serving::run(rt, alloc, arguments, out, errors),
        Job::Put(arguments) => {
            let wire = &mut network.wire(alloc);
            put::run(system, wire, alloc, arguments, input, out, errors)
        }
        Job::Get(arguments) => {
            let wire = &mut network.wire(alloc);
            get::run(system, wire, alloc, arguments, out, errors)
        }
        Job::Sync(arguments) => {
            let wire = &mut network.wire(alloc);
            sync::run(system, wire, alloc, arguments, out, errors)
        }
    }
}
