//! What of one archive is better is put at the other one, and a line says so.

ghost use Rattle.std.specs.Prelude.{◌≡◌, ◌≢◌, ◌≤◌, ◌++◌, [], ◌∷◌, OnOk, IfErr, option_map};
ghost use Rattle.std.specs.Io.KnownBytes.{Appends};
ghost use Rattle.archive_arguments.specs.Lines.{LineFails};
ghost use Rattle.archive_commands.specs.Syncing.{PutsOne, PutsSaid, nothing_words, part_line, sent_words};

use crate::limits::ROUNDS;
use crate::line::push_words;
use crate::run_fault::of_run;
use crate::sync::SyncArguments;
use crate::sync_reporting::report_at;
use crate::transfer_wire::TransferWire;
use archive_arguments::write_line;
use archive_sync::put_part;
use byte_output::put;
use command_line::{DONE, ToolFault};
use std::alloc::Global;
use std::io::Write;
use tftp_packet::Endpoint;
use tws_file::Ruleset;

/// What is put: of which ruleset, and whether it goes back to the archive that was fetched first.
#[derive(Clone, Copy, Debug)]
pub(crate) struct Way {
    pub(crate) ruleset: Ruleset,
    pub(crate) back: bool,
}

impl Way {
    // What stands before the number of bytes that were put.
    fn sent_words(self) -> &'static str
        ensures { result.now ≡ sent_words self.«ruleset» self.back }
    {
        match (self.ruleset, self.back) {
            (Ruleset::Lynx, false) => "lynx sent ",
            (Ruleset::Lynx, true) => "lynx back sent ",
            (Ruleset::Ms, false) => "ms sent ",
            (Ruleset::Ms, true) => "ms back sent ",
        }
    }

    // That nothing was put.
    fn nothing_words(self) -> &'static str
        ensures { result.now ≡ nothing_words self.«ruleset» self.back }
    {
        match (self.ruleset, self.back) {
            (Ruleset::Lynx, false) => "lynx nothing better",
            (Ruleset::Lynx, true) => "lynx back nothing better",
            (Ruleset::Ms, false) => "ms nothing better",
            (Ruleset::Ms, true) => "ms back nothing better",
        }
    }
}

// Writes a text as a line.
fn write_words<W: Write>(alloc: Global, words: &str, out: &mut W) -> Result<(), ToolFault>
    ensures said { OnOk result (Appends (W.contents out.old) (W.contents out.new) (words.now ++ 10 ∷ [])) }
    ensures fails { IfErr result (LineFails (words.now ++ 10 ∷ []) (W.contents out.old) (W.contents out.new)) }
{
    let mut text = String::new(alloc);
    push_words(&mut text, words)?;
    put(out, text.as_bytes())?;
    Ok(())
}

// Writes the line for what was put, if anything was.
fn say_part<W: Write>(
    alloc: Global,
    way: Way,
    sent: Option<u64>,
    out: &mut W,
) -> Result<(), ToolFault>
    ensures said { OnOk result (Appends (W.contents out.old) (W.contents out.new) (part_line way.«ruleset» way.back sent)) }
    ensures fails { IfErr result (LineFails (part_line way.«ruleset» way.back sent) (W.contents out.old) (W.contents out.new)) }
{
    match sent {
        Some(len) => write_line(alloc, way.sent_words(), len, " bytes", out),
        None => write_words(alloc, way.nothing_words(), out),
    }
}

// Puts a part at an archive, and says so.
fn put_said<N: TransferWire, W: Write>(
    wire: &mut N,
    alloc: Global,
    to: Endpoint,
    way: Way,
    part: Option<Vec<u8>>,
    out: &mut W,
) -> Result<(), ToolFault>
    ensures { PutsSaid to way.«ruleset» way.back (option_map (λ text. text.items) part) result (N.calls wire.old) (N.calls wire.new) (W.contents out.old) (W.contents out.new) }
{
    match put_part(wire, to, part, ROUNDS) {
        Ok(sent) => say_part(alloc, way, sent, out),
        Err(fault) => Err(of_run(fault)),
    }
}

/// Puts a part at an archive, says so, or reports why not, and returns the status.
pub(crate) fn put_reported<N: TransferWire, W: Write, E: Write>(
    wire: &mut N,
    alloc: Global,
    to: Endpoint,
    way: Way,
    part: Option<Vec<u8>>,
    arguments: &SyncArguments,
    out: &mut W,
    errors: &mut E,
) -> u8
    ensures puts { PutsOne to way.«ruleset» way.back (option_map (λ text. text.items) part) result (N.calls wire.old) (N.calls wire.new) (W.contents out.old) (W.contents out.new) }
    ensures usage { result ≢ 1 }
    ensures readable { result ≢ 3 }
    ensures few { result ≤ 4 }
    ensures silent { result ≡ 0 → errors.new ≡ errors.old }
{
    match put_said(wire, alloc, to, way, part, out) {
        Ok(()) => DONE,
        Err(fault) => report_at(fault, arguments, way.back, wire, errors),
    }
}
