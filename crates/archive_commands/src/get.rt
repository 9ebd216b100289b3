//! The command `get`.

ghost use Rattle.std.specs.Prelude.{◌≡◌, ◌≢◌, ◌⊎◌, false, OnOk, OnErr, IfOk, IfErr, string_bytes};
ghost use Rattle.clap.specs.Matches.{found_of};
ghost use Rattle.clap.specs.Words.{app_of, rows_of};
ghost use Rattle.clap.specs.declared.builder.command.Command.TheViews.{out-Command};
ghost use Rattle.command_line.specs.Arguments.{Answers};
ghost use Rattle.archive_commands.specs.Get.{AsksToGet, FetchFails, Fetches, GetFails, GetRan, Gets, Replaces, get_app};
ghost use Rattle.command_line.specs.Faults.{status_of};
ghost use Rattle.system_files.specs.Files.{Keeps};
ghost use Rattle.archive_commands.specs.Lines.{Unless};
ghost use Rattle.archive_commands.specs.Reports.{GetReports, ReportsGet};

use crate::arguments::{address_argument, file_argument, target_given};
use crate::limits::ROUNDS;
use crate::locating::locate;
use crate::received::receive;
use crate::reporting::{no_host, report_received};
use crate::resolver::Resolver;
use crate::target::Target;
use crate::transfer_wire::TransferWire;
use archive_arguments::{port_argument, write_line};
use archive_runs::GetRun;
use byte_output::put;
use clap::{ArgMatches, Command};
use command_line::{
    DONE, ToolFault, new_command, report_file, ruleset_argument, ruleset_given, string_given,
};
use std::alloc::{AllocError, Global};
use std::io;
use std::io::Write;
use system_files::FileSystem;
use tftp_packet::Endpoint;
use tws_file::Ruleset;

/// What `get` is asked for.
#[derive(Drop)]
pub struct GetArguments {
    /// The collection of this ruleset.
    pub ruleset: Ruleset,
    /// The name of the file that is written.
    pub file: String,
    /// Where the archive is.
    pub target: Target,
}

// What the help of the command begins and ends with.
const ABOUT: &str = "Fetch an archive's collection";

const HELP: &str =
    "A file that is there stays as it is until the whole collection has come.\n\nExample: tws get 192.0.2.1 lynx best.tws";

/// The command line of `get`, with these names of the rulesets.
///
/// # Errors
///
/// If an allocation was refused.
pub fn command<'a>(alloc: Global, names: &'a [&'a str]) -> Result<Command<'a>, AllocError>
    ensures app { IfOk result (λ command. app_of command ≡ get_app names.entry) }
    ensures local { IfOk result (λ command. (out-Command command).has_globals ≡ false) }
{
    new_command(alloc, "get", ABOUT, HELP)
        .arg(address_argument(alloc))?
        .arg(ruleset_argument(alloc, names))?
        .arg(file_argument(alloc, "The file to write"))?
        .arg(port_argument(alloc))
}

/// What the arguments ask for; `None` if the ruleset is unknown, or they name no target.
pub fn asked(alloc: Global, words: &ArgMatches) -> Result<Option<GetArguments>, AllocError>
    ensures { IfOk result (Answers (AsksToGet (rows_of (found_of words.now)))) }
{
    let Some(ruleset) = ruleset_given(words) else {
        return Ok(None);
    };
    let Some(file) = string_given(alloc, words, "file")? else {
        return Ok(None);
    };
    let Some(target) = target_given(alloc, words)? else {
        return Ok(None);
    };
    Ok(Some(GetArguments {
        ruleset,
        file,
        target,
    }))
}

/// Why a collection was not fetched, or not reported.
#[derive(Debug, Drop)]
pub struct GetFault {
    /// What failed.
    pub fault: ToolFault,
    /// What the system said of the file, if that failed.
    pub cause: Option<io::Error>,
}

impl GetFault {
    // The file cannot be written.
    fn of_file(cause: io::Error) -> Self
        ensures { result.fault ≡ ToolFault.Write }
    {
        GetFault {
            fault: ToolFault::Write,
            cause: Some(cause),
        }
    }
}

// Reports why a collection was not fetched, and returns the status.
fn report_get<N: TransferWire, E: Write>(
    fault: GetFault,
    arguments: &GetArguments,
    wire: &N,
    errors: &mut E,
) -> u8
    ensures status { result ≡ status_of fault.fault }
    ensures printed { ReportsGet fault.cause fault.fault (string_bytes arguments.now.file) (string_bytes arguments.now.target.address) (N.refusal_of wire.now) (N.reached_of wire.now) (E.contents errors.old) (E.contents errors.new) }
{
    match fault.cause {
        Some(cause) => report_file(fault.fault, arguments.file.as_str(), &cause, errors),
        None => report_received(fault.fault, &arguments.target.address, wire, errors),
    }
}

// Writes these bytes into a draft, which then takes the place of the file of this name.
fn replace<S: FileSystem>(
    system: &mut S,
    name: &str,
    mut draft: S::Draft,
    bytes: &[u8],
) -> Result<(), GetFault>
    ensures replaced { OnOk result (Replaces name.now bytes.now (S.Draft.contents draft) (S.bytes_of system.old) (S.bytes_of system.new)) }
    ensures kept { OnErr result (Keeps (S.bytes_of system.old) (S.bytes_of system.new)) }
    ensures fault { IfErr result (λ e. e.fault ≡ ToolFault.Write) }
{
    if put(&mut draft, bytes).is_err() {
        let cause = system.abandon(draft);
        return Err(GetFault {
            fault: ToolFault::Write,
            cause,
        });
    }
    match system.publish(name, draft) {
        Ok(()) => Ok(()),
        Err(cause) => Err(GetFault::of_file(cause)),
    }
}

// Fetches a collection, whose bytes then take the place of the file of this name, by this draft. Returns how many they are,
// and the run, which is to dally.
fn fetch<S: FileSystem, N: TransferWire>(
    system: &mut S,
    wire: &mut N,
    alloc: Global,
    server: Endpoint,
    ruleset: Ruleset,
    name: &str,
    draft: S::Draft,
) -> Result<(u64, GetRun), GetFault>
    ensures fetched { IfOk result (λ got. Fetches server «ruleset» name.now got (N.calls wire.old) (N.calls wire.new) (S.Draft.contents draft) (S.bytes_of system.old) (S.bytes_of system.new)) }
    ensures fails { IfErr result (λ e. FetchFails server «ruleset» (N.calls wire.old) (N.calls wire.new) (S.bytes_of system.old) (S.bytes_of system.new) e.fault) }
{
    match receive(wire, alloc, server, ruleset) {
        Ok(received) => match replace(system, name, draft, &received.bytes) {
            Ok(()) => Ok((received.len, received.run)),
            Err(fault) => Err(fault),
        },
        Err(fault) => {
            let _ = system.abandon(draft);
            Err(GetFault { fault, cause: None })
        }
    }
}

/// Fetches the collection of this ruleset from the archive into the file of this name, in at most `ROUNDS` rounds; then
/// prints its length in bytes, and dallies (`Run::dally`). `server` is the archive's host and request port. The file is
/// created before a port is opened, and if there is one already it stays as it is until the whole collection has arrived.
///
/// # Errors
///
/// `Socket` if no port was opened, `Transfer` with the cause of the failed transfer, and `Unreadable` with index 0 and the
/// fault of what was fetched, `BadRuleset` with its code if it is a file of the other ruleset: then no file is changed.
/// `Write` if the file cannot be written, which then stays as it is, or the writer fails. `Memory` if an allocation was
/// refused.
pub fn get_file<S: FileSystem, N: TransferWire, W: Write>(
    system: &mut S,
    wire: &mut N,
    alloc: Global,
    server: Endpoint,
    ruleset: Ruleset,
    name: &str,
    out: &mut W,
) -> Result<(), GetFault>
    ensures got { OnOk result (Gets server «ruleset» name.now (N.calls wire.old) (N.calls wire.new) (S.drafted_of system.old name.now) (S.bytes_of system.old) (S.bytes_of system.new) (W.contents out.old) (W.contents out.new)) }
    ensures fails { IfErr result (λ e. GetFails server «ruleset» name.now (N.calls wire.old) (N.calls wire.new) (S.drafted_of system.old name.now) (S.bytes_of system.old) (S.bytes_of system.new) (W.contents out.old) (W.contents out.new) e.fault) }
    // Holds also for a writer without ghost contents.
    ensures unwritten { IfErr result (λ e. Unless (out.new ≡ out.old) e.fault) }
{
    let draft = match system.begin(name) {
        Ok(draft) => draft,
        Err(cause) => return Err(GetFault::of_file(cause)),
    };
    match fetch(system, wire, alloc, server, ruleset, name, draft) {
        Ok((len, mut run)) => {
            let said = write_line(alloc, "got ", len, " bytes", out);
            run.dally(wire, ROUNDS);
            match said {
                Ok(()) => Ok(()),
                Err(fault) => Err(GetFault { fault, cause: None }),
            }
        }
        Err(fault) => Err(fault),
    }
}

/// Runs `get` over this wire, and returns the status.
pub fn run<S: FileSystem + Resolver, N: TransferWire, W: Write, E: Write>(
    system: &mut S,
    wire: &mut N,
    alloc: Global,
    arguments: &GetArguments,
    out: &mut W,
    errors: &mut E,
) -> u8
    ensures ran { GetRan (record { bytes_of = S.bytes_of system.old; drafted_of = S.drafted_of system.old; below_of = S.below_of system.old; host_of = S.host_of system.old }) arguments.now result (N.calls wire.old) (N.calls wire.new) (S.bytes_of system.new) (W.contents out.old) (W.contents out.new) }
    ensures unwritten { result ≢ 0 → result ≢ 2 → out.new ≡ out.old }
    ensures silent { result ≡ 0 → errors.new ≡ errors.old }
    ensures printed { result ≢ 0 → GetReports (string_bytes arguments.now.target.address) (string_bytes arguments.now.file) result (N.refusal_of wire.new) (N.reached_of wire.new) (E.contents errors.old) (E.contents errors.new) }
{
    let target = &arguments.target;
    let Some(host) = locate(system, target.address.as_str()) else {
        return no_host(target.address.as_str(), errors);
    };
    let port = target.port;
    let done = get_file(
        system,
        wire,
        alloc,
        Endpoint { host, port },
        arguments.ruleset,
        arguments.file.as_str(),
        out,
    );
    match done {
        Ok(()) => DONE,
        Err(fault) => report_get(fault, arguments, wire, errors),
    }
}
