//! A solution file that is a whole input.

ghost use Rattle.std.specs.Prelude.{IfOk, IfErr};
ghost use Rattle.command_line.specs.Faults.{ReadFails, IsReadOut};
ghost use Rattle.command_line.specs.Inputs.{IsRead};

use crate::reader_sink::ReaderSink;
use command_line::{ToolFault, read_to_end};
use std::alloc::Global;
use std::io::Read;
use tws_file::TwsFile;
use tws_reader::Reader;

/// Reads the solution file in the input with this index, counted from 0, to the input's end.
///
/// # Errors
///
/// `Read` if the reader fails or does not end within `INPUT_READS` reads; `Unreadable` with the index and the fault
/// of the bytes, once they were read to their end; `Memory` if an allocation was refused.
pub fn read_input<R: Read>(alloc: Global, index: usize, input: &mut R) -> Result<TwsFile, ToolFault>
    ensures file { IfOk result (IsRead (R.remaining input.old) (R.remaining input.new)) }
    ensures unreadable { IfErr result (IsReadOut (R.remaining input.new)) }
    ensures fault { IfErr result (ReadFails index (R.remaining input.old)) }
{
    let mut sink = ReaderSink {
        reader: Reader::new(alloc),
    };
    read_to_end(input, &mut sink)?;
    sink.reader
        .finish()
        .map_err(|fault| ToolFault::of_input(index, fault))
}
