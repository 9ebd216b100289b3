//! Lines with a number.

ghost use Rattle.std.specs.Prelude.{◌≡◌, ◌++◌, [], ◌∷◌, OnOk, IfErr, string_bytes};
ghost use Rattle.archive_arguments.specs.Lines.{number_line, LineFails};
ghost use Rattle.std.specs.Io.KnownBytes.{Appends};

use byte_output::put;
use command_line::ToolFault;
use std::alloc::{AllocError, Global};
use std::io::Write;

/// Adds a number between two texts, as a line.
pub fn push_line(
    text: &mut String,
    before: &str,
    number: u64,
    after: &str,
) -> Result<(), AllocError>
    ensures { OnOk result (string_bytes text.new ≡ string_bytes text.old ++ number_line before.now number after.now) }
{
    writeln!(text, "{before}{number}{after}")
}

/// Writes a number between two texts, as a line.
///
/// # Errors
///
/// `Write` if the writer fails: a proper prefix of the line was written. `Memory` if out of memory for the line:
/// nothing was written.
pub fn write_line<W: Write>(
    alloc: Global,
    before: &str,
    number: u64,
    after: &str,
    out: &mut W,
) -> Result<(), ToolFault>
    ensures said { OnOk result (Appends (W.contents out.old) (W.contents out.new) (number_line before.now number after.now)) }
    ensures fails { IfErr result (LineFails (number_line before.now number after.now) (W.contents out.old) (W.contents out.new)) }
{
    let mut text = String::new(alloc);
    push_line(&mut text, before, number, after)?;
    put(out, text.as_bytes())?;
    Ok(())
}
