//! The solutions of a file as comma-separated values.

ghost use Rattle.std.specs.Prelude.{◌++◌, OnOk, OnErr};
ghost use Rattle.std.specs.Io.KnownBytes.{Appends};
ghost use Rattle.byte_output.specs.Output.{AppendsPrefix};
ghost use Rattle.tws_file.specs.Record.{records_of};
ghost use Rattle.tws_tables.specs.Csv.{csv_fields, csv_line, csv_names, csv_of};
ghost use Rattle.tws_tables.specs.Solved.{rows_by};

use crate::csv_row::{CsvRows, push_names};
use crate::rows::send_rows;
use byte_output::{OutFault, put};
use std::alloc::Allocator;
use std::io::Write;
use tws_file::{Record, Ruleset, TwsFile};

// Writes the lines of a file with these parts.
fn write_parts<A: Allocator, B: Allocator, W: Write>(
    alloc: A,
    ruleset: Ruleset,
    records: &[Record<B>],
    out: &mut W,
) -> Result<(), OutFault>
    ensures ok { OnOk result (Appends (W.contents out.old) (W.contents out.new) (csv_line csv_names ++ rows_by (λ s. csv_line (csv_fields «ruleset» s)) (records_of records.now))) }
    ensures err { OnErr result (AppendsPrefix (W.contents out.old) (W.contents out.new) (csv_line csv_names ++ rows_by (λ s. csv_line (csv_fields «ruleset» s)) (records_of records.now))) }
{
    let mut text = String::new(alloc);
    push_names(&mut text)?;
    send_rows(&mut text, &CsvRows(ruleset), records, out)?;
    put(out, text.as_bytes())
}

/// Writes the solutions of a file as comma-separated values: a line with the names of the columns, and one for each
/// solution, in the file's order. No field has a comma or a quote.
///
/// The lines are written in large pieces.
///
/// # Errors
///
/// `Io` if the writer fails, `Memory` if an allocation was refused. A proper prefix of the lines was written.
pub fn write_csv<A: Allocator, B: Allocator, W: Write>(
    alloc: A,
    file: &TwsFile<B>,
    out: &mut W,
) -> Result<(), OutFault>
    ensures ok { OnOk result (Appends (W.contents out.old) (W.contents out.new) (csv_of file.now)) }
    ensures err { OnErr result (AppendsPrefix (W.contents out.old) (W.contents out.new) (csv_of file.now)) }
{
    let records = file.records.as_slice();
    write_parts(alloc, file.ruleset, records, out)
}
