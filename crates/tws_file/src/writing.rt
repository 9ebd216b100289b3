//! Writing the text of a file.

ghost use Rattle.std.specs.Prelude.{◌≡◌, ◌<◌, ◌++◌, length, OnOk, OnErr, IfErr};
ghost use Rattle.std.specs.List.{flat_map, AllByRecursion};
ghost use Rattle.std.specs.Io.KnownBytes.{Appends};
ghost use Rattle.tws_file.specs.Record.{record_of, records_of};
ghost use Rattle.tws_file.specs.Text.{IsRecord, header_text, record_text, text_of};
ghost use Rattle.byte_output.specs.Output.{Sends, AppendsPrefix};

use crate::record::Record;
use crate::ruleset::Ruleset;
use crate::signature::SIGNATURE;
use crate::tws_file::TwsFile;
use byte_output::{Buffer, LARGE, OutFault, put};
use std::alloc::Allocator;
use std::io::Write;

// The header up to its further bytes.
fn header_head(ruleset: Ruleset, word: [u8; 2], extra: &[u8]) -> Buffer<8>
    requires { length extra.now < 256 }
    ensures { result ++ extra.now ≡ header_text «ruleset» word extra.now }
{
    let mut head = Buffer::new();
    head.push(&SIGNATURE);
    head.push(&[ruleset.code()]);
    head.push(&word);
    head.push(&[extra.len() as u8]);
    head
}

// Sends a text of two parts.
fn send_both<W: Write>(
    buffer: &mut Buffer<LARGE>,
    head: &[u8],
    tail: &[u8],
    out: &mut W,
) -> Result<(), OutFault>
    ensures ok { OnOk result (Sends (W.contents out.old) (W.contents out.new) (buffer.old ++ (head.now ++ tail.now)) buffer.new) }
    ensures err { OnErr result (AppendsPrefix (W.contents out.old) (W.contents out.new) (buffer.old ++ (head.now ++ tail.now))) }
    ensures io { IfErr result (λ e. e ≡ OutFault.Io) }
{
    buffer.send(head, out)?;
    buffer.send(tail, out)
}

// Sends the texts of records.
fn send_records<B: Allocator, W: Write>(
    buffer: &mut Buffer<LARGE>,
    records: &[Record<B>],
    out: &mut W,
) -> Result<(), OutFault>
    requires { AllByRecursion IsRecord (records_of records.now) }
    ensures ok { OnOk result (Sends (W.contents out.old) (W.contents out.new)
        (buffer.old ++ flat_map record_text (records_of records.now)) buffer.new) }
    ensures err { OnErr result (AppendsPrefix (W.contents out.old) (W.contents out.new)
        (buffer.old ++ flat_map record_text (records_of records.now))) }
    ensures io { IfErr result (λ e. e ≡ OutFault.Io) }
{
    for record in records {
        send_both(buffer, record.head().as_slice(), record.tail(), out)?;
    }
    Ok(())
}

// Writes the text of a file with these parts.
fn write_parts<B: Allocator, W: Write>(
    ruleset: Ruleset,
    word: [u8; 2],
    extra: &[u8],
    records: &[Record<B>],
    out: &mut W,
) -> Result<(), OutFault>
    requires extra { length extra.now < 256 }
    requires records { AllByRecursion IsRecord (records_of records.now) }
    ensures ok { OnOk result (Appends (W.contents out.old) (W.contents out.new)
        (header_text «ruleset» word extra.now ++ flat_map record_text (records_of records.now))) }
    ensures err { OnErr result (AppendsPrefix (W.contents out.old) (W.contents out.new)
        (header_text «ruleset» word extra.now ++ flat_map record_text (records_of records.now))) }
    ensures io { IfErr result (λ e. e ≡ OutFault.Io) }
{
    let mut buffer = Buffer::new();
    let head = header_head(ruleset, word, extra);
    send_both(&mut buffer, head.as_slice(), extra, out)?;
    send_records(&mut buffer, records, out)?;
    put(out, buffer.as_slice())
}

/// Writes the text of a file, in large pieces. Does not allocate.
///
/// # Errors
///
/// `Io` if the writer fails. A proper prefix of the text was written.
pub fn write_file<B: Allocator, W: Write>(file: &TwsFile<B>, out: &mut W) -> Result<(), OutFault>
    ensures ok { OnOk result (Appends (W.contents out.old) (W.contents out.new) (text_of file.now)) }
    ensures err { OnErr result (AppendsPrefix (W.contents out.old) (W.contents out.new) (text_of file.now)) }
    ensures io { IfErr result (λ e. e ≡ OutFault.Io) }
{
    let records = file.records.as_slice();
    write_parts(file.ruleset, file.word, file.extra.as_slice(), records, out)
}
