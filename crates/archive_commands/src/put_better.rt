//! What of a file is better than what an archive has is put there.

ghost use Rattle.std.specs.Prelude.{◌≡◌, ◌≢◌, ◌≤◌, ◌++◌, ℕ, List, Option, Result, OnOk, IfOk, IfErr, option_map, string_bytes};
ghost use Rattle.command_line.specs.declared.tool_fault.ToolFault.{ToolFault as Fault};
ghost use Rattle.command_line.specs.Faults.{answer_status};
ghost use Rattle.command_line.specs.Printing.{Printed};
ghost use Rattle.archive_commands.specs.Reports.{ReportsOne, ReportsSent, ReportsUncompared, names_of, texts_lines, uncompared_lines};
ghost use Rattle.std.specs.Io.KnownBytes.{Appends};
ghost use Rattle.archive_sync.specs.Fetching.{FetchesNewsOf, NewsOfFails, PutsPart};
ghost use Rattle.archive_commands.specs.declared.limits.TheConstants.{ROUNDS};
ghost use Rattle.archive_commands.specs.Labels.{label_of};
ghost use Rattle.archive_commands.specs.Lines.{Unless};
ghost use Rattle.archive_arguments.specs.Lines.{LineFails};
ghost use Rattle.archive_commands.specs.PutBetter.{IsRulesOf, PutsAndSays, PutsBetter, PutsPlanned, better_text, outcome_line};
ghost use Rattle.archive_commands.specs.Syncing.{news_status, sync_status};

use crate::labels::{finish_sent, name_of, names_of, push_label, report_unsent};
use crate::limits::ROUNDS;
use crate::line::push_words;
use crate::run_fault::of_run;
use crate::sync_reporting::report_texts;
use crate::transfer_wire::TransferWire;
use archive_arguments::push_line;
use archive_runs::RunFault;
use archive_sync::{News, NewsFault, SyncFault, fetch_news_of, put_part};
use byte_output::put;
use command_line::{Source, ToolFault, print_about};
use std::alloc::{AllocError, Global};
use std::io::Write;
use tftp_packet::Endpoint;
use tws_compare::{Counts, counts_text};
use tws_file::Ruleset;

// ---- what it prints

// Adds the line for what was sent, if anything was.
fn push_outcome(text: &mut String, sent: Option<u64>) -> Result<(), AllocError>
    ensures { OnOk result (string_bytes text.new ≡ string_bytes text.old ++ outcome_line sent) }
{
    match sent {
        Some(len) => push_line(text, "sent ", len, " bytes"),
        None => push_words(text, "nothing better"),
    }
}

// How the file and the collection compare, and what was sent.
fn better_text(
    alloc: Global,
    several: bool,
    source: &Source,
    counts: Counts,
    sent: Option<u64>,
) -> Result<String, AllocError>
    ensures { IfOk result (λ text. string_bytes text ≡ better_text (label_of several source.now) counts sent) }
{
    let mut text = String::new(alloc);
    push_label(&mut text, several, source)?;
    text.push_str(counts_text(alloc, counts)?.as_str())?;
    push_label(&mut text, several, source)?;
    push_outcome(&mut text, sent)?;
    Ok(text)
}

// Writes both lines at once, so that nothing is written if nothing could be sent.
fn say_better<W: Write>(
    alloc: Global,
    several: bool,
    source: &Source,
    counts: Counts,
    sent: Option<u64>,
    out: &mut W,
) -> Result<(), ToolFault>
    ensures said { OnOk result (Appends (W.contents out.old) (W.contents out.new) (better_text (label_of several source.now) counts sent)) }
    ensures fails { IfErr result (LineFails (better_text (label_of several source.now) counts sent) (W.contents out.old) (W.contents out.new)) }
    ensures unwritten { IfErr result (Unless (out.new ≡ out.old)) }
{
    let text = better_text(alloc, several, source, counts, sent)?;
    put(out, text.as_bytes())?;
    Ok(())
}

// ---- what it sends

// How many bytes are to be sent.
fn length_of(part: &Option<Vec<u8>>) -> Option<u64> {
    match part {
        Some(text) => Some(text.len() as u64),
        None => None,
    }
}

// Puts a part, and shows how far it has come.
fn put_shown<N: TransferWire>(
    wire: &mut N,
    to: Endpoint,
    part: Option<Vec<u8>>,
) -> Result<Option<u64>, RunFault>
    ensures { PutsPart to (option_map (λ text. text.items) part) ROUNDS result (N.calls wire.old) (N.calls wire.new) }
{
    wire.begin(length_of(&part));
    let sent = put_part(wire, to, part, ROUNDS);
    wire.finish();
    sent
}

// Puts what is better, if anything is, and says so.
fn put_and_say<N: TransferWire, W: Write>(
    wire: &mut N,
    alloc: Global,
    to: Endpoint,
    several: bool,
    source: &Source,
    news: News,
    out: &mut W,
) -> Result<(), ToolFault>
    ensures puts { PutsAndSays (label_of several source.now) to news result (N.calls wire.old) (N.calls wire.new) (W.contents out.old) (W.contents out.new) }
    ensures unwritten { IfErr result (Unless (out.new ≡ out.old)) }
{
    let counts = news.counts();
    let (forth, _back) = news.into_parts();
    match put_shown(wire, to, forth) {
        Ok(sent) => say_better(alloc, several, source, counts, sent, out),
        Err(fault) => Err(of_run(fault)),
    }
}

// The same, with a report of why not, and the status.
fn put_planned<N: TransferWire, W: Write, E: Write>(
    wire: &mut N,
    alloc: Global,
    to: Endpoint,
    several: bool,
    source: &Source,
    news: News,
    out: &mut W,
    errors: &mut E,
) -> u8
    ensures puts { PutsPlanned (label_of several source.now) to news result (N.calls wire.old) (N.calls wire.new) (W.contents out.old) (W.contents out.new) }
    ensures usage { result ≢ 1 }
    ensures few { result ≤ 4 }
    ensures unwritten { result ≢ 0 → result ≢ 2 → out.new ≡ out.old }
    ensures silent { result ≡ 0 → errors.new ≡ errors.old }
    ensures printed { (done : Result (Unit {0}) Fault) × (result ≡ answer_status done) × ReportsSent several source.now done (N.refusal_of wire.new) (N.reached_of wire.new) (E.contents errors.old) (E.contents errors.new) }
{
    let done = put_and_say(wire, alloc, to, several, source, news, out);
    finish_sent(done, wire, several, source, errors)
}

// ---- the whole

// The ruleset of a solution file, which these bytes are.
fn ruleset_of(bytes: &[u8]) -> Ruleset
    ensures { IsRulesOf bytes.now result }
{
    match Ruleset::of_file(bytes) {
        Some(ruleset) => ruleset,
        // They are none.
        None => Ruleset::Lynx,
    }
}

// Fetches the collection of a ruleset, and compares a file with it. Shows how far the get has come.
fn fetch_shown<N: TransferWire>(
    wire: &mut N,
    alloc: Global,
    bytes: &[u8],
    to: Endpoint,
    ruleset: Ruleset,
) -> Result<News, SyncFault>
    ensures fetched { IfOk result (λ told. FetchesNewsOf bytes.now to (record { rules = «ruleset»; rounds = ROUNDS }) told (N.calls wire.old) (N.calls wire.new)) }
    ensures fails { IfErr result (λ fault. NewsOfFails bytes.now to (record { rules = «ruleset»; rounds = ROUNDS }) fault (N.calls wire.old) (N.calls wire.new)) }
{
    wire.begin(None);
    let news = fetch_news_of(alloc, wire, bytes, to, ruleset, ROUNDS);
    wire.finish();
    news
}

// Prints that a file which is one of several was not compared.
fn print_uncompared<E: Write>(several: bool, source: &Source, errors: &mut E)
    ensures { Printed (uncompared_lines several source.now) (E.contents errors.old) (E.contents errors.new) }
{
    if several {
        print_about(name_of(source), "not compared", errors);
    }
}

// Reports why two texts cannot be compared, of which this file is the first, and returns the status.
fn report_news_of<E: Write>(
    fault: NewsFault,
    several: bool,
    source: &Source,
    address: &String,
    errors: &mut E,
) -> u8
    ensures status { result ≡ news_status fault }
    ensures printed { (mid : Option (List ℕ)) × Printed (texts_lines (names_of source.now) (string_bytes address.now) fault) (E.contents errors.old) mid × Printed (uncompared_lines several source.now) mid (E.contents errors.new) }
{
    let status = report_texts(fault, names_of(source), address, errors);
    print_uncompared(several, source, errors);
    status
}

// Reports why a file was not compared with the collection, and returns the status.
fn report_uncompared<N: TransferWire, E: Write>(
    fault: SyncFault,
    wire: &N,
    several: bool,
    source: &Source,
    address: &String,
    errors: &mut E,
) -> u8
    ensures status { result ≡ sync_status fault }
    ensures done { result ≢ 0 }
    ensures usage { result ≢ 1 }
    ensures few { result ≤ 4 }
    ensures printed { ReportsUncompared several source.now (string_bytes address.now) fault (N.refusal_of wire.now) (N.reached_of wire.now) (E.contents errors.old) (E.contents errors.new) }
{
    match fault {
        SyncFault::From(fault) => report_unsent(of_run(fault), wire, several, source, errors),
        SyncFault::To(fault) => report_unsent(of_run(fault), wire, several, source, errors),
        SyncFault::News(fault) => report_news_of(fault, several, source, address, errors),
    }
}

/// Puts what of a solution file with these bytes is better than what the archive has, or new, and says how they compare and
/// what was sent; or reports why not. Returns the status. `source` is the file, one of `several`, and `address` is the archive's.
pub(crate) fn put_better<N: TransferWire, W: Write, E: Write>(
    wire: &mut N,
    alloc: Global,
    bytes: &[u8],
    to: Endpoint,
    several: bool,
    source: &Source,
    address: &String,
    out: &mut W,
    errors: &mut E,
) -> u8
    ensures puts { PutsBetter (label_of several source.now) bytes.now to result (N.calls wire.old) (N.calls wire.new) (W.contents out.old) (W.contents out.new) }
    ensures usage { result ≢ 1 }
    ensures few { result ≤ 4 }
    ensures unwritten { result ≢ 0 → result ≢ 2 → out.new ≡ out.old }
    ensures silent { result ≡ 0 → errors.new ≡ errors.old }
    ensures printed { ReportsOne several source.now (string_bytes address.now) result (N.refusal_of wire.new) (N.reached_of wire.new) (E.contents errors.old) (E.contents errors.new) }
{
    let ruleset = ruleset_of(bytes);
    match fetch_shown(wire, alloc, bytes, to, ruleset) {
        Ok(news) => put_planned(wire, alloc, to, several, source, news, out, errors),
        Err(fault) => report_uncompared(fault, wire, several, source, address, errors),
    }
}
