//! A caller of `byte_output`.

use byte_output::{Buffer, LARGE, OutFault, put};
use std::io::Write;

/// Writes the texts one after another, in few calls of the writer.
pub fn write_texts<W: Write>(texts: &[&[u8]], out: &mut W) -> Result<(), OutFault> {
    let mut buffer = Buffer::<LARGE>::new();
    for text in texts {
        buffer.send(text, out)?;
    }
    put(out, buffer.as_slice())
}
