//! What is written to a terminal to draw the line, and to erase it.

ghost use Rattle.std.specs.Prelude.{◌≡◌, ◌++◌, OnOk, OnErr, IfErr, string_bytes};
ghost use Rattle.std.specs.Io.KnownBytes.{Appends};
ghost use Rattle.byte_output.specs.Output.{AppendsPrefix};
ghost use Rattle.archive_progress.specs.Text.{drawing_of, erasure};

use crate::progress::Progress;
use byte_output::{OutFault, put};
use std::alloc::{AllocError, Allocator};
use std::io::Write;

// Appends what draws the line.
fn push_drawing<A: Allocator>(text: &mut String<A>, progress: &Progress) -> Result<(), AllocError>
    ensures { OnOk result (string_bytes text.new ≡ string_bytes text.old ++ drawing_of progress.now) }
{
    write!(text, "\r\x1b[K{progress}")
}

/// Draws the line in place of what the terminal's line has. It is written at once.
///
/// # Errors
///
/// `Io` if the writer fails: a proper prefix was written. `Memory` if an allocation was refused: nothing was.
pub(crate) fn draw<A: Allocator, W: Write>(
    alloc: A,
    progress: &Progress,
    out: &mut W,
) -> Result<(), OutFault>
    ensures ok { OnOk result (Appends (W.contents out.old) (W.contents out.new) (drawing_of progress.now)) }
    ensures err { OnErr result (AppendsPrefix (W.contents out.old) (W.contents out.new) (drawing_of progress.now)) }
{
    let mut text = String::new(alloc);
    push_drawing(&mut text, progress)?;
    put(out, text.as_bytes())
}

/// Erases the terminal's line.
///
/// # Errors
///
/// `Io` if the writer fails: a proper prefix was written.
pub(crate) fn erase<W: Write>(out: &mut W) -> Result<(), OutFault>
    ensures ok { OnOk result (Appends (W.contents out.old) (W.contents out.new) erasure) }
    ensures err { OnErr result (AppendsPrefix (W.contents out.old) (W.contents out.new) erasure) }
    ensures io { IfErr result (λ e. e ≡ OutFault.Io) }
{
    put(out, "\r\x1b[K".as_bytes())
}
