//! A whole input, read to its end.

ghost use Rattle.std.specs.Prelude.{[]};
ghost use Rattle.command_line.specs.Reading.{ReadsInto};

use crate::input_sink::InputSink;
use crate::limits::{INPUT_PIECE, INPUT_READS};
use crate::tool_fault::ToolFault;
use std::io::Read;

/// Reads an input to its end, in pieces of at most `INPUT_PIECE` bytes, and hands each to a sink that has taken
/// nothing before.
///
/// # Errors
///
/// `Read` if the reader fails or does not end within `INPUT_READS` reads: the sink has taken what was read. Otherwise
/// the fault with which the sink refused a piece: nothing was read after that piece.
pub fn read_to_end<R: Read, S: InputSink>(input: &mut R, sink: &mut S) -> Result<(), ToolFault>
    requires { S.has_taken sink.old [] }
    ensures { ReadsInto S.has_taken S.refuses (R.remaining input.old) (R.remaining input.new) sink.new result }
{
    let mut piece = [0; INPUT_PIECE];
    for _ in 0..INPUT_READS {
        let Ok(count) = input.read(&mut piece) else {
            return Err(ToolFault::Read);
        };
        if count == 0 {
            return Ok(());
        }
        sink.take(&piece[..count])?;
    }
    Err(ToolFault::Read)
}
