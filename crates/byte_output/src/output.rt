//! Writes bytes in full, and bytes as text.

ghost use Rattle.std.specs.Prelude.{◌≡◌, OnOk, OnErr, IfErr};
ghost use Rattle.std.specs.Io.KnownBytes.{Appends};
ghost use Rattle.byte_output.specs.Output.{AppendsPrefix};

use crate::out_fault::OutFault;
use std::io::Write;

/// Writes all of the bytes, in as many calls of the writer as it takes. Does not allocate.
///
/// # Errors
///
/// `Io` if the writer returns an error, or takes none of the remaining bytes. A proper prefix of the bytes was written.
pub fn put<W: Write>(out: &mut W, bytes: &[u8]) -> Result<(), OutFault>
    ensures ok { OnOk result (Appends (W.contents out.old) (W.contents out.new) bytes.now) }
    ensures err { OnErr result (AppendsPrefix (W.contents out.old) (W.contents out.new) bytes.now) }
    ensures io { IfErr result (λ e. e ≡ OutFault.Io) }
{
    let mut rest = bytes;
    while !rest.is_empty() {
        match out.write(rest) {
            Ok(0) | Err(_) => return Err(OutFault::Io),
            Ok(count) => rest = &rest[count..],
        }
    }
    Ok(())
}
