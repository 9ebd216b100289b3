//! The command `put`.

ghost use Rattle.std.specs.Prelude.{◌≡◌, ◌≢◌, ◌⊎◌, ◌+◌, length, false, Ok, Err, OnOk, IfOk, IfErr, IfSome, string_bytes};
ghost use Rattle.std.specs.Io.KnownBytes.{IsAtEnd};
ghost use Rattle.clap.specs.Matches.{found_of};
ghost use Rattle.clap.specs.Words.{app_of, rows_of};
ghost use Rattle.clap.specs.declared.builder.command.Command.TheViews.{out-Command};
ghost use Rattle.archive_runs.specs.Rounds.{PutsInRounds};
ghost use Rattle.tftp_ends.specs.declared.limits.TheConstants.{MAX_FILE};
ghost use Rattle.archive_commands.specs.declared.limits.TheConstants.{ROUNDS};
ghost use Rattle.command_line.specs.declared.limits.TheConstants.{INPUT_PIECE};
ghost use Rattle.command_line.specs.Arguments.{Answers};
ghost use Rattle.command_line.specs.Printing.{Printed};
ghost use Rattle.archive_commands.specs.Put.{AsksToPut, IsReadUp, IsWholeInput, PutFails, PutRuns, Puts, ReadsAtMost, WholeFails, put_app, sending_app};
ghost use Rattle.archive_commands.specs.Labels.{are_several};
ghost use Rattle.archive_commands.specs.PutRan.{PutRan};
ghost use Rattle.archive_commands.specs.Faults.{run_fault};
ghost use Rattle.archive_commands.specs.Lines.{Unless};
ghost use Rattle.archive_commands.specs.PutSaid.{PutReports, PutSaid};
ghost use Rattle.archive_commands.specs.Reports.{no_host_reason, swapped_reason};
ghost use Rattle.archive_arguments.specs.Address.{bad_address_lines};
ghost use Rattle.archive_commands.specs.Stopping.{IsFirstStopping};

use crate::arguments::{address_argument, files_argument, flag_argument, target_given};
use crate::file_bytes::FileBytes;
use crate::limits::ROUNDS;
use crate::locating::locate;
use crate::put_files::put_files;
use crate::reporting::{no_host, swapped};
use crate::resolver::Resolver;
use crate::run_fault::of_run;
use crate::target::Target;
use crate::transfer_wire::TransferWire;
use crate::whole_file::WholeFile;
use archive_arguments::{Address, flag_given, port_argument, write_line};
use archive_runs::{RunFault, put_in_rounds};
use clap::{ArgMatches, Command};
use command_line::{Source, ToolFault, new_command, read_to_end, sources_given};
use std::alloc::{AllocError, Global};
use std::io::{Read, Write};
use system_files::FileSystem;
use tftp_ends::MAX_FILE;
use tftp_packet::Endpoint;

/// What `put` is asked for.
#[derive(Drop)]
pub struct PutArguments {
    /// The solution files, in the order in which they are sent.
    pub sources: Vec<Source>,
    /// Where it is sent.
    pub target: Target,
    /// Whether only what is better than the archive's collection, or new, is sent.
    pub better: bool,
}

// What the help of the command begins and ends with.
const ABOUT: &str = "Send solution files to an archive";

const HELP: &str =
    "The archive takes each file whole, and keeps what is better than what it has. All files are read before the first is sent.\n\nExample: tws put 192.0.2.1 mine.tws";

// The command with only its files and where they are sent.
fn sending_command<'a>(alloc: Global) -> Result<Command<'a>, AllocError>
    ensures app { IfOk result (λ command. app_of command ≡ sending_app) }
    ensures local { IfOk result (λ command. (out-Command command).has_globals ≡ false) }
{
    new_command(alloc, "put", ABOUT, HELP)
        .arg(address_argument(alloc))?
        .arg(files_argument(alloc, "The solution files; standard input for -"))?
        .arg(port_argument(alloc))
}

/// The command line of `put`.
///
/// # Errors
///
/// If an allocation was refused.
pub fn command<'a>(alloc: Global) -> Result<Command<'a>, AllocError>
    ensures app { IfOk result (λ command. app_of command ≡ put_app) }
    ensures local { IfOk result (λ command. (out-Command command).has_globals ≡ false) }
{
    sending_command(alloc)?.arg(flag_argument(
        alloc,
        "better",
        "Compare each file with the collection, and send only what is better or new",
    ))
}

/// What the arguments ask for; `None` if they name no target.
pub fn asked(alloc: Global, words: &ArgMatches) -> Result<Option<PutArguments>, AllocError>
    ensures { IfOk result (Answers (AsksToPut (rows_of (found_of words.now)))) }
{
    let Some(target) = target_given(alloc, words)? else {
        return Ok(None);
    };
    let sources = sources_given(alloc, words)?;
    let better = flag_given(words, "better");
    Ok(Some(PutArguments {
        sources,
        target,
        better,
    }))
}

/// Reads all bytes of an input, which must be the text of a solution file. One is left as soon as it is known to be none, or
/// longer than a file may be.
pub(crate) fn read_whole<R: Read>(alloc: Global, input: &mut R) -> Result<WholeFile, ToolFault>
    ensures whole { IfOk result (λ file. IsWholeInput (R.remaining input.old) file.bytes.items) }
    ensures first { IfOk result (λ file. IsFirstStopping file.bytes.items file.stopping) }
    ensures end { OnOk result (IsAtEnd (R.remaining input.new)) }
    ensures unreadable { IfErr result (IsReadUp (R.remaining input.old) (R.remaining input.new)) }
    ensures fault { IfErr result (WholeFails (R.remaining input.old)) }
    ensures most { ReadsAtMost (MAX_FILE + INPUT_PIECE) (R.remaining input.old) (R.remaining input.new) }
{
    let mut sink = FileBytes::new(alloc);
    match read_to_end(input, &mut sink) {
        Ok(()) => {}
        Err(fault) => return Err(fault),
    }
    let FileBytes {
        bytes,
        reader,
        stopping,
    } = sink;
    match reader.finish() {
        Ok(()) => Ok(WholeFile { bytes, stopping }),
        Err(fault) => Err(ToolFault::of_input(0, fault)),
    }
}

/// Puts a file in at most `ROUNDS` rounds, and shows how far it has come.
pub(crate) fn put_shown<N: TransferWire>(
    wire: &mut N,
    server: Endpoint,
    bytes: Vec<u8>,
) -> Result<u64, RunFault>
    ensures { PutsInRounds server bytes.items ROUNDS result (N.calls wire.old) (N.calls wire.new) }
{
    wire.begin(Some(bytes.len() as u64));
    let sent = put_in_rounds(wire, server, bytes, ROUNDS);
    wire.finish();
    sent
}

/// Reads a solution file to its end, and sends it to the archive in at most `ROUNDS` rounds; then prints its length
/// in bytes. `server` is the archive's host and request port.
///
/// # Errors
///
/// `Read` if the reader fails or does not end within `INPUT_READS` reads; `Unreadable` with index 0 and the fault of the
/// bytes, of which no more are read once no further ones can cure it; `Transfer(TooLong)` if more than `MAX_FILE` bytes have
/// no such fault, of which at most 16,384 beyond these are read: then nothing is sent. `Socket` if no port was opened, and `Transfer` with the cause of the failed transfer.
/// `Write` if the writer fails, after the file was sent. `Memory` if an allocation was refused.
pub fn put_file<R: Read, N: TransferWire, W: Write>(
    alloc: Global,
    input: &mut R,
    wire: &mut N,
    server: Endpoint,
    out: &mut W,
) -> Result<(), ToolFault>
    ensures end { OnOk result (IsAtEnd (R.remaining input.new)) }
    ensures unreadable { IfErr result (IsReadUp (R.remaining input.old) (R.remaining input.new)) }
    ensures most { ReadsAtMost (MAX_FILE + INPUT_PIECE) (R.remaining input.old) (R.remaining input.new) }
    ensures sent { OnOk result (Puts (R.remaining input.old) server (N.calls wire.old) (N.calls wire.new) (W.contents out.old) (W.contents out.new)) }
    ensures fails { IfErr result (PutFails (R.remaining input.old) server (N.calls wire.old) (N.calls wire.new) (W.contents out.old) (W.contents out.new)) }
    // Holds also for a writer without ghost contents.
    ensures unwritten { IfErr result (Unless (out.new ≡ out.old)) }
{
    let file = read_whole(alloc, input)?;
    match put_shown(wire, server, file.bytes) {
        Ok(len) => write_line(alloc, "sent ", len, " bytes", out),
        Err(fault) => Err(of_run(fault)),
    }
}

// Reports that ADDRESS leads to no host, and returns the status.
fn not_located<E: Write>(arguments: &PutArguments, errors: &mut E) -> u8
    ensures status { result ≡ 1 }
    ensures printed { Printed (bad_address_lines (string_bytes arguments.now.target.address) no_host_reason) (E.contents errors.old) (E.contents errors.new) ⊎ Printed (bad_address_lines (string_bytes arguments.now.target.address) swapped_reason) (E.contents errors.old) (E.contents errors.new) }
{
    let address = arguments.target.address.as_str();
    match arguments.sources.first() {
        Some(Source::Named(name))
            if Address::read(name.as_str()).is_some() || address.ends_with(".tws") => {
            swapped(address, errors)
        }
        _ => no_host(address, errors),
    }
}

/// Runs `put` over this wire, and returns the status: that of the first fault. Nothing is sent before all files have been
/// read, and it was said which of their solutions stop Tile World; and nothing at all if one cannot be read, or that not said.
pub fn run<S: FileSystem + Resolver, N: TransferWire, R: Read, W: Write, E: Write>(
    system: &S,
    wire: &mut N,
    alloc: Global,
    arguments: &PutArguments,
    input: &mut R,
    out: &mut W,
    errors: &mut E,
) -> u8
    ensures ran { PutRan (S.bytes_of system.now) (S.host_of system.now) (input.new ≡ input.old) arguments.now result (N.calls wire.old) (N.calls wire.new) (R.remaining input.old) (R.remaining input.new) (W.contents out.old) (W.contents out.new) }
    ensures usage { result ≡ 1 → (input.new ≡ input.old) × (out.new ≡ out.old) }
    ensures unreadable { result ≡ 3 → out.new ≡ out.old }
    // The same of one file at any other fault than in writing.
    ensures unwritten { are_several arguments.now.sources.items ≡ false → result ≢ 0 → result ≢ 2 → out.new ≡ out.old }
    ensures said { result ≡ 0 → PutSaid (S.bytes_of system.now) arguments.now.sources.items (R.remaining input.old) (errors.new ≡ errors.old) (E.contents errors.old) (E.contents errors.new) }
    ensures printed { PutReports (S.bytes_of system.now) arguments.now.sources.items (R.remaining input.old) (string_bytes arguments.now.target.address) result (E.contents errors.old) (E.contents errors.new) }
{
    let target = &arguments.target;
    let Some(host) = locate(system, target.address.as_str()) else {
        return not_located(arguments, errors);
    };
    let port = target.port;
    let server = Endpoint { host, port };
    put_files(system, wire, alloc, arguments, server, input, out, errors)
}
