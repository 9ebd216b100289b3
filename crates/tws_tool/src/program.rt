//! The whole program, except where its arguments and streams come from.

ghost use Rattle.std.specs.Prelude.{◌≡◌, ◌⊎◌, ◌≤◌, None, Result, map, string_bytes};
ghost use Rattle.tws_tool.specs.declared.job.Job.{Job};
ghost use Rattle.command_line.specs.declared.job_fault.JobFault.{JobFault};
ghost use Rattle.tws_tool.specs.Jobs.{JobRuns, JobSaid};
ghost use Rattle.tws_tool.specs.CommandLine.{AnswersWords};

use crate::client_network::ClientNetwork;
use crate::job::{Job, run_job};
use crate::words::job_of;
use archive_commands::{Network, Resolver};
use command_line::{JobFault, report_job_fault};
use std::alloc::Global;
use std::fs::File;
use std::io::{Read, Write};
use std::net::Net;
use std::random::RandomSource;
use std::rt::Files;
use std::time::Clock;
use system_files::{FileSystem, System};

// Does a job, or reports why there is none, and returns the status.
fn run_answer<
    S: FileSystem + Resolver,
    N: Network,
    P: Files<File = File> + Net + Clock + RandomSource + Eprint + AllocGlobal + Copy,
    R: Read,
    W: Write,
    E: Write,
>(
    system: &mut S,
    network: &mut N,
    rt: &P,
    alloc: Global,
    job: &Result<Job, JobFault>,
    to_terminal: bool,
    input: &mut R,
    out: &mut W,
    errors: &mut E,
) -> u8
    ensures ran { JobRuns to_terminal (record { bytes_of = S.bytes_of system.old; drafted_of = S.drafted_of system.old; below_of = S.below_of system.old; host_of = S.host_of system.old }) (S.bytes_of system.new) (input.new ≡ input.old) (out.new ≡ out.old) (N.first_calls network.old) job.now result (R.remaining input.old) (R.remaining input.new) (W.contents out.old) (W.contents out.new) }
    ensures usage { result ≡ 1 → (input.new ≡ input.old) × (out.new ≡ out.old) }
    ensures status { result ≤ 4 }
    ensures unreadable { result ≡ 3 → out.new ≡ out.old }
    ensures said { result ≡ 0 → JobSaid (record { bytes_of = S.bytes_of system.old; drafted_of = S.drafted_of system.old; below_of = S.below_of system.old; host_of = S.host_of system.old }) (R.remaining input.old) (errors.new ≡ errors.old) job.now (E.contents errors.old) (E.contents errors.new) }
{
    match job {
        Ok(job) => run_job(
            system,
            network,
            *rt,
            alloc,
            job,
            to_terminal,
            input,
            out,
            errors,
        ),
        Err(fault) => report_job_fault(alloc, fault, out, errors),
    }
}

/// Does what the arguments ask for, and returns the exit status. The first argument is the program's name; `to_terminal` says
/// whether `out` is a terminal. The files of
/// `system` are read and replaced, and `put`, `get` and `sync` go over a wire of `network` to the hosts that `system` finds; the
/// folder and the sockets of `serve` are the runtime's.
///
/// A fault goes to `errors`, on one line or two, and before it, or at status 0 alone, what the job says (`JobSaid`). The status is 0 if all was done, and for help, whose text goes to `out`; 1 for
/// a usage error, a bad address, or archives without a level in common; 2 if reading, writing, a socket or memory failed; 3 for an unreadable solution file;
/// 4 for a failed transfer.
pub fn run_words_with<
    S: FileSystem + Resolver,
    N: Network,
    P: Files<File = File> + Net + Clock + RandomSource + Eprint + AllocGlobal + Copy,
    R: Read,
    W: Write,
    E: Write,
>(
    system: &mut S,
    network: &mut N,
    rt: &P,
    alloc: Global,
    words: &[String],
    to_terminal: bool,
    input: &mut R,
    out: &mut W,
    errors: &mut E,
) -> u8
    // The job is the one that the arguments ask for, with the files that they name.
    ensures ran { (job : Result Job JobFault) × AnswersWords (map string_bytes words.now) job × JobRuns to_terminal (record { bytes_of = S.bytes_of system.old; drafted_of = S.drafted_of system.old; below_of = S.below_of system.old; host_of = S.host_of system.old }) (S.bytes_of system.new) (input.new ≡ input.old) (out.new ≡ out.old) (N.first_calls network.old) job result (R.remaining input.old) (R.remaining input.new) (W.contents out.old) (W.contents out.new) × (result ≡ 0 → JobSaid (record { bytes_of = S.bytes_of system.old; drafted_of = S.drafted_of system.old; below_of = S.below_of system.old; host_of = S.host_of system.old }) (R.remaining input.old) (errors.new ≡ errors.old) job (E.contents errors.old) (E.contents errors.new)) }
    // A usage error leaves input and output untouched, and an unreadable file the output.
    ensures usage { result ≡ 1 → (input.new ≡ input.old) × (out.new ≡ out.old) }
    ensures status { result ≤ 4 }
    ensures unreadable { result ≡ 3 → out.new ≡ out.old }
{
    run_answer(
        system,
        network,
        rt,
        alloc,
        &job_of(alloc, words),
        to_terminal,
        input,
        out,
        errors,
    )
}

/// `run_words_with` over the system's files, resolver and sockets, which have no ghost contents or logs. `put` and `get`
/// show on `terminal`, if there is one, how far they have come.
pub fn run_words<
    P: Files<File = File> + Net + Clock + RandomSource + Eprint + AllocGlobal + Copy,
    R: Read,
    W: Write,
    E: Write,
    T: Write + Drop,
>(
    rt: &P,
    alloc: Global,
    words: &[String],
    to_terminal: bool,
    terminal: Option<T>,
    input: &mut R,
    out: &mut W,
    errors: &mut E,
) -> u8
    ensures ran { (job : Result Job JobFault) × AnswersWords (map string_bytes words.now) job × JobRuns to_terminal (record { bytes_of = λ name. None; drafted_of = λ name. None; below_of = λ name. None; host_of = λ name. None }) (λ name. None) (input.new ≡ input.old) (out.new ≡ out.old) None job result (R.remaining input.old) (R.remaining input.new) (W.contents out.old) (W.contents out.new) × (result ≡ 0 → JobSaid (record { bytes_of = λ name. None; drafted_of = λ name. None; below_of = λ name. None; host_of = λ name. None }) (R.remaining input.old) (errors.new ≡ errors.old) job (E.contents errors.old) (E.contents errors.new)) }
    ensures usage { result ≡ 1 → (input.new ≡ input.old) × (out.new ≡ out.old) }
    ensures status { result ≤ 4 }
    ensures unreadable { result ≡ 3 → out.new ≡ out.old }
{
    let network = &mut ClientNetwork::new(*rt, terminal);
    run_words_with(
        &mut System(*rt),
        network,
        rt,
        alloc,
        words,
        to_terminal,
        input,
        out,
        errors,
    )
}
