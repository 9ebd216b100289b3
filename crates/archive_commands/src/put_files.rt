//! Several files are read, it is said which of their solutions stop Tile World, and they are sent one after the other.

ghost use Rattle.std.specs.Prelude.{◌≡◌, ◌≢◌, ◌≤◌, ℕ, [], ◌∷◌, ◌++◌, false, true, take, Result, map, OnOk, IfOk, IfErr, string_bytes};
ghost use Rattle.std.specs.Io.KnownBytes.{Appends};
ghost use Rattle.command_line.specs.Inputs.{has_standard, is_standard};
ghost use Rattle.command_line.specs.declared.tool_fault.ToolFault.{ToolFault as Fault};
ghost use Rattle.command_line.specs.Faults.{answer_status};
ghost use Rattle.command_line.specs.Saying.{Says};
ghost use Rattle.archive_commands.specs.Labels.{are_several, label_of};
ghost use Rattle.archive_commands.specs.Lines.{Unless, sent_line};
ghost use Rattle.archive_arguments.specs.Lines.{LineFails};
ghost use Rattle.archive_commands.specs.PutFiles.{AreRead, FailsToRead, HasRead, IsFailedStatus, IsUnread, NotesStopping, PutsFiles, PutsText, PutsWhole, SendsEach, SendsOne, SendsSaid, status_among};
ghost use Rattle.archive_commands.specs.PutSaid.{PutReports, PutSaid};
ghost use Rattle.archive_commands.specs.Reports.{ReportsEach, ReportsFirst, ReportsOne, ReportsSent, ReportsUnread, SaysThen};
ghost use Rattle.archive_commands.specs.Stopping.{IsFirstStopping, stopping_line};

use crate::labels::{are_several, finish_sent, push_label, report_file_fault};
use crate::put::{PutArguments, put_shown, read_whole};
use crate::put_better::put_better;
use crate::run_fault::of_run;
use crate::stopping::push_stopping;
use crate::syncing::first_of;
use crate::transfer_wire::TransferWire;
use crate::whole_file::WholeFile;
use archive_arguments::push_line;
use byte_output::put;
use command_line::{
    DONE, NOT_TRANSFERRED, Source, ToolFault, UNREADABLE, report, report_file, say,
};
use std::alloc::{AllocError, Global};
use std::io::{Read, Write};
use system_files::FileSystem;
use tftp_packet::Endpoint;

// ---- reading

// Reads a file whole, or reports why not and returns the status.
fn read_one<S: FileSystem, R: Read, E: Write>(
    system: &S,
    alloc: Global,
    several: bool,
    source: &Source,
    input: &mut R,
    errors: &mut E,
) -> Result<WholeFile, u8>
    ensures read { IfOk result (λ file. HasRead (S.bytes_of system.now) source.now file.bytes.items (R.remaining input.old) (R.remaining input.new)) }
    ensures first { IfOk result (λ file. IsFirstStopping file.bytes.items file.stopping) }
    ensures unread { IfErr result (IsUnread (S.bytes_of system.now) source.now (R.remaining input.old) (R.remaining input.new)) }
    ensures kept { is_standard source.now ≡ false → input.new ≡ input.old }
    ensures failed { IfErr result IsFailedStatus }
    ensures silent { OnOk result (errors.new ≡ errors.old) }
    ensures printed { IfErr result (λ status. ReportsUnread several source.now status (E.contents errors.old) (E.contents errors.new)) }
{
    match source {
        Source::Standard => match read_whole(alloc, input) {
            Ok(file) => Ok(file),
            Err(fault) => Err(report_file_fault(fault, several, source, errors)),
        },
        Source::Named(name) => match system.open(name.as_str()) {
            Ok(mut opened) => match read_whole(alloc, &mut opened) {
                Ok(file) => Ok(file),
                Err(fault) => Err(report_file_fault(fault, several, source, errors)),
            },
            Err(cause) => Err(report_file(ToolFault::Read, name.as_str(), &cause, errors)),
        },
    }
}

// Adds a file's text, and the line for its first solution that stops Tile World.
fn push_file(
    texts: &mut Vec<Vec<u8>>,
    note: &mut String,
    several: bool,
    source: &Source,
    file: WholeFile,
) -> Result<(), AllocError>
    ensures text { OnOk result (texts.new.items ≡ texts.old.items ++ file.bytes ∷ []) }
    ensures noted { OnOk result (string_bytes note.new ≡ string_bytes note.old ++ stopping_line (label_of several source.now) file.stopping) }
{
    let WholeFile { bytes, stopping } = file;
    push_stopping(note, several, source, stopping)?;
    texts.push(bytes)?;
    Ok(())
}

// Reads each file whole, in order, and notes which of their solutions stop Tile World; or reports why one is not read and returns
// the status.
fn read_all<S: FileSystem, R: Read, E: Write>(
    system: &S,
    alloc: Global,
    sources: &[Source],
    input: &mut R,
    note: &mut String,
    errors: &mut E,
) -> Result<Vec<Vec<u8>>, u8>
    requires { string_bytes note.old ≡ [] }
    ensures read { IfOk result (λ texts. AreRead (S.bytes_of system.now) sources.now (map (λ text. text.items) texts.items) (R.remaining input.old) (R.remaining input.new)) }
    ensures noted { IfOk result (λ texts. NotesStopping (are_several sources.now) sources.now (map (λ text. text.items) texts.items) (string_bytes note.new)) }
    ensures unread { IfErr result (FailsToRead (S.bytes_of system.now) sources.now (R.remaining input.old) (R.remaining input.new)) }
    ensures kept { has_standard sources.now ≡ false → input.new ≡ input.old }
    ensures failed { IfErr result IsFailedStatus }
    ensures silent { OnOk result (errors.new ≡ errors.old) }
    ensures printed { IfErr result (λ status. ReportsFirst sources.now status (E.contents errors.old) (E.contents errors.new)) }
{
    let several = are_several(sources);
    let mut texts = Vec::new(alloc);
    for source in sources {
        match read_one(system, alloc, several, source, input, errors) {
            Ok(file) => match push_file(&mut texts, note, several, source, file) {
                Ok(()) => {}
                Err(AllocError) => {
                    return Err(report_file_fault(ToolFault::Memory, several, source, errors));
                }
            },
            Err(status) => return Err(status),
        }
    }
    Ok(texts)
}

// ---- sending a file whole

// Writes the line for a file that was sent.
fn say_sent<W: Write>(
    alloc: Global,
    several: bool,
    source: &Source,
    len: u64,
    out: &mut W,
) -> Result<(), ToolFault>
    ensures said { OnOk result (Appends (W.contents out.old) (W.contents out.new) (label_of several source.now ++ sent_line len)) }
    ensures fails { IfErr result (LineFails (label_of several source.now ++ sent_line len) (W.contents out.old) (W.contents out.new)) }
    ensures unwritten { IfErr result (Unless (out.new ≡ out.old)) }
{
    let mut text = String::new(alloc);
    push_label(&mut text, several, source)?;
    push_line(&mut text, "sent ", len, " bytes")?;
    put(out, text.as_bytes())?;
    Ok(())
}

// Puts a text, and says so.
fn put_text<N: TransferWire, W: Write>(
    wire: &mut N,
    alloc: Global,
    to: Endpoint,
    several: bool,
    source: &Source,
    text: Vec<u8>,
    out: &mut W,
) -> Result<(), ToolFault>
    ensures puts { PutsText (label_of several source.now) text.items to result (N.calls wire.old) (N.calls wire.new) (W.contents out.old) (W.contents out.new) }
    ensures unwritten { IfErr result (Unless (out.new ≡ out.old)) }
{
    match put_shown(wire, to, text) {
        Ok(len) => say_sent(alloc, several, source, len, out),
        Err(fault) => Err(of_run(fault)),
    }
}

// The same, with a report of why not, and the status.
fn put_whole<N: TransferWire, W: Write, E: Write>(
    wire: &mut N,
    alloc: Global,
    to: Endpoint,
    several: bool,
    source: &Source,
    text: Vec<u8>,
    out: &mut W,
    errors: &mut E,
) -> u8
    ensures puts { PutsWhole (label_of several source.now) text.items to result (N.calls wire.old) (N.calls wire.new) (W.contents out.old) (W.contents out.new) }
    ensures usage { result ≢ 1 }
    ensures few { result ≤ 4 }
    ensures unwritten { result ≢ 0 → result ≢ 2 → out.new ≡ out.old }
    ensures silent { result ≡ 0 → errors.new ≡ errors.old }
    ensures printed { (done : Result (Unit {0}) Fault) × (result ≡ answer_status done) × ReportsSent several source.now done (N.refusal_of wire.new) (N.reached_of wire.new) (E.contents errors.old) (E.contents errors.new) }
{
    let done = put_text(wire, alloc, to, several, source, text, out);
    finish_sent(done, wire, several, source, errors)
}

// ---- sending each file

// Sends a text as it is asked, and returns the status.
fn send_one<N: TransferWire, W: Write, E: Write>(
    wire: &mut N,
    alloc: Global,
    arguments: &PutArguments,
    to: Endpoint,
    several: bool,
    source: &Source,
    text: Vec<u8>,
    out: &mut W,
    errors: &mut E,
) -> u8
    ensures sends { SendsOne arguments.now.better (label_of several source.now) text.items to result (N.calls wire.old) (N.calls wire.new) (W.contents out.old) (W.contents out.new) }
    ensures usage { result ≢ 1 }
    ensures few { result ≤ 4 }
    ensures unwritten { result ≢ 0 → result ≢ 2 → out.new ≡ out.old }
    ensures silent { result ≡ 0 → errors.new ≡ errors.old }
    ensures printed { ReportsOne several source.now (string_bytes arguments.now.target.address) result (N.refusal_of wire.new) (N.reached_of wire.new) (E.contents errors.old) (E.contents errors.new) }
{
    if arguments.better {
        let address = &arguments.target.address;
        put_better(
            wire, alloc, &text, to, several, source, address, out, errors,
        )
    } else {
        put_whole(wire, alloc, to, several, source, text, out, errors)
    }
}

// The status for one of several files. There 3 would say that nothing was sent, so a collection that is no solution file
// counts as a failed transfer.
fn status_among(several: bool, status: u8) -> u8
    ensures { result ≡ status_among several status }
{
    if several && status == UNREADABLE {
        NOT_TRANSFERRED
    } else {
        status
    }
}

// Sends each file, whatever comes of those before it, and returns the status of the first fault. `texts` are those of the
// sources, in order.
fn send_each<N: TransferWire, W: Write, E: Write>(
    wire: &mut N,
    alloc: Global,
    arguments: &PutArguments,
    to: Endpoint,
    sources: &[Source],
    texts: Vec<Vec<u8>>,
    out: &mut W,
    errors: &mut E,
) -> u8
    ensures sends { SendsEach arguments.now.better (are_several sources.now) to sources.now (map (λ text. text.items) texts.items) result (N.calls wire.old) (N.calls wire.new) (W.contents out.old) (W.contents out.new) }
    ensures usage { result ≢ 1 }
    ensures few { result ≤ 4 }
    ensures unreadable { are_several sources.now ≡ true → result ≢ 3 }
    ensures unwritten { are_several sources.now ≡ false → result ≢ 0 → result ≢ 2 → out.new ≡ out.old }
    ensures silent { result ≡ 0 → errors.new ≡ errors.old }
    ensures printed { (count : ℕ) × ReportsEach (are_several sources.now) (string_bytes arguments.now.target.address) (take count sources.now) (E.contents errors.old) (E.contents errors.new) }
{
    let several = are_several(sources);
    let mut status = DONE;
    let mut texts = texts.into_iter();
    for source in sources {
        let Some(text) = texts.next() else {
            return status;
        };
        let one = send_one(
            wire, alloc, arguments, to, several, source, text, out, errors,
        );
        status = first_of(status, status_among(several, one));
    }
    status
}

// ---- the whole

// Says what there is to say of the files, and then sends each of them as it is asked; or reports why not. Returns the status.
fn say_and_send<N: TransferWire, W: Write, E: Write>(
    wire: &mut N,
    alloc: Global,
    arguments: &PutArguments,
    to: Endpoint,
    sources: &[Source],
    texts: Vec<Vec<u8>>,
    note: &str,
    out: &mut W,
    errors: &mut E,
) -> u8
    ensures sends { SendsSaid arguments.now.better (are_several sources.now) note.now to sources.now (map (λ text. text.items) texts.items) result (N.calls wire.old) (N.calls wire.new) (W.contents out.old) (W.contents out.new) }
    ensures usage { result ≢ 1 }
    ensures few { result ≤ 4 }
    ensures unreadable { are_several sources.now ≡ true → result ≢ 3 }
    ensures unwritten { are_several sources.now ≡ false → result ≢ 0 → result ≢ 2 → out.new ≡ out.old }
    ensures said { result ≡ 0 → Says note.now (errors.new ≡ errors.old) (E.contents errors.old) (E.contents errors.new) }
    ensures printed { SaysThen note.now sources.now (string_bytes arguments.now.target.address) (E.contents errors.old) (E.contents errors.new) }
{
    match say(note, errors) {
        Ok(()) => send_each(wire, alloc, arguments, to, sources, texts, out, errors),
        Err(fault) => report(fault, &[], errors),
    }
}

/// Reads all files, says which of their solutions stop Tile World, and then sends each file as it is asked; or reports why not.
/// Returns the status.
pub(crate) fn put_files<S: FileSystem, N: TransferWire, R: Read, W: Write, E: Write>(
    system: &S,
    wire: &mut N,
    alloc: Global,
    arguments: &PutArguments,
    to: Endpoint,
    input: &mut R,
    out: &mut W,
    errors: &mut E,
) -> u8
    ensures puts { PutsFiles (S.bytes_of system.now) arguments.now.better arguments.now.sources.items to result (N.calls wire.old) (N.calls wire.new) (R.remaining input.old) (R.remaining input.new) (W.contents out.old) (W.contents out.new) }
    ensures kept { has_standard arguments.now.sources.items ≡ false → input.new ≡ input.old }
    ensures usage { result ≢ 1 }
    ensures few { result ≤ 4 }
    ensures unreadable { are_several arguments.now.sources.items ≡ true → result ≡ 3 → out.new ≡ out.old }
    ensures unwritten { are_several arguments.now.sources.items ≡ false → result ≢ 0 → result ≢ 2 → out.new ≡ out.old }
    ensures said { result ≡ 0 → PutSaid (S.bytes_of system.now) arguments.now.sources.items (R.remaining input.old) (errors.new ≡ errors.old) (E.contents errors.old) (E.contents errors.new) }
    ensures printed { PutReports (S.bytes_of system.now) arguments.now.sources.items (R.remaining input.old) (string_bytes arguments.now.target.address) result (E.contents errors.old) (E.contents errors.new) }
{
    let sources = arguments.sources.as_slice();
    let mut note = String::new(alloc);
    match read_all(system, alloc, sources, input, &mut note, errors) {
        Ok(texts) => {
            let note = note.as_str();
            say_and_send(
                wire, alloc, arguments, to, sources, texts, note, out, errors,
            )
        }
        Err(status) => status,
    }
}
