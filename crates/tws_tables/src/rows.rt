//! The rows of records, gathered in a text and written as it grows large.

ghost use Rattle.std.specs.Prelude.{◌++◌, string_bytes, [], ◌∷◌, OnOk, OnErr};
ghost use Rattle.byte_output.specs.Output.{Sends, AppendsPrefix};
ghost use Rattle.tws_file.specs.Record.{record_of, records_of};
ghost use Rattle.tws_tables.specs.Solved.{rows_by};

use crate::row_format::RowFormat;
use crate::sending::send_if_large;
use byte_output::OutFault;
use std::alloc::Allocator;
use std::io::Write;
use tws_file::{Record, Solution};

// Gathers the row of a solution.
fn send_row<F: RowFormat, A: Allocator, B: Allocator, W: Write>(
    text: &mut String<A>,
    format: &F,
    solution: &Solution<B>,
    out: &mut W,
) -> Result<(), OutFault>
    ensures ok { OnOk result (Sends (W.contents out.old) (W.contents out.new) (string_bytes text.old ++ F.row_text format.now solution.now) (string_bytes text.new)) }
    ensures err { OnErr result (AppendsPrefix (W.contents out.old) (W.contents out.new) (string_bytes text.old ++ F.row_text format.now solution.now)) }
{
    format.push_row(text, solution)?;
    send_if_large(text, out)
}

// Gathers the row of a record, if it is a solution.
fn send_record<F: RowFormat, A: Allocator, B: Allocator, W: Write>(
    text: &mut String<A>,
    format: &F,
    one: &Record<B>,
    out: &mut W,
) -> Result<(), OutFault>
    ensures ok { OnOk result (Sends (W.contents out.old) (W.contents out.new) (string_bytes text.old ++ rows_by (F.row_text format.now) (record_of one.now ∷ [])) (string_bytes text.new)) }
    ensures err { OnErr result (AppendsPrefix (W.contents out.old) (W.contents out.new) (string_bytes text.old ++ rows_by (F.row_text format.now) (record_of one.now ∷ []))) }
{
    match one {
        Record::Solution(solution) => send_row(text, format, solution, out),
        Record::Pad | Record::Set { .. } | Record::Bare { .. } => Ok(()),
    }
}

/// Appends the rows of the records to a text that was gathered for this writer, and writes the text out as it grows large.
/// What was not written is left in it.
///
/// # Errors
///
/// `Io` if the writer fails, `Memory` if an allocation was refused. A proper prefix of the text and the rows was written, and
/// the text is unspecified.
pub fn send_rows<F: RowFormat, A: Allocator, B: Allocator, W: Write>(
    text: &mut String<A>,
    format: &F,
    records: &[Record<B>],
    out: &mut W,
) -> Result<(), OutFault>
    ensures ok { OnOk result (Sends (W.contents out.old) (W.contents out.new) (string_bytes text.old ++ rows_by (F.row_text format.now) (records_of records.now)) (string_bytes text.new)) }
    ensures err { OnErr result (AppendsPrefix (W.contents out.old) (W.contents out.new) (string_bytes text.old ++ rows_by (F.row_text format.now) (records_of records.now))) }
{
    for record in records {
        send_record(text, format, record, out)?;
    }
    Ok(())
}
