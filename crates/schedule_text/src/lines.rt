//! The lines of a text.

ghost use Rattle.std.specs.Prelude.{◌≡◌, IfOk, map};
ghost use Rattle.schedule_text.specs.Schedule.{lines_of};

use std::alloc::{AllocError, Global};
use std::mem;

/// The lines of a text: its parts between newlines.
///
/// # Errors
///
/// Out of memory.
pub(crate) fn lines_in(alloc: Global, text: &[u8]) -> Result<Vec<Vec<u8>>, AllocError>
    ensures { IfOk result (λ lines. map (λ l. l.items) lines.items ≡ lines_of text.now) }
{
    let mut lines = Vec::new(alloc);
    let mut line = Vec::new(alloc);
    for byte in text {
        if *byte == b'\n' {
            lines.push(mem::replace(&mut line, Vec::new(alloc)))?;
        } else {
            line.push(*byte)?;
        }
    }
    lines.push(line)?;
    Ok(lines)
}
