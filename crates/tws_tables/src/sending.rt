//! A text that is gathered, and written as it grows large.

ghost use Rattle.std.specs.Prelude.{string_bytes, OnOk, OnErr};
ghost use Rattle.byte_output.specs.Output.{Sends, AppendsPrefix};

use byte_output::{LARGE, OutFault, put};
use std::alloc::Allocator;
use std::io::Write;

/// Writes the gathered text out once there is much of it.
pub(crate) fn send_if_large<A: Allocator, W: Write>(
    text: &mut String<A>,
    out: &mut W,
) -> Result<(), OutFault>
    ensures ok { OnOk result (Sends (W.contents out.old) (W.contents out.new) (string_bytes text.old) (string_bytes text.new)) }
    ensures err { OnErr result (AppendsPrefix (W.contents out.old) (W.contents out.new) (string_bytes text.old)) }
{
    if text.len() >= LARGE {
        put(out, text.as_bytes())?;
        text.clear();
    }
    Ok(())
}
