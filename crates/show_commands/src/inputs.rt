//! The solution files that are several whole inputs.

ghost use Rattle.std.specs.Prelude.{map, OnOk, IfOk, IfErr};
ghost use Rattle.std.specs.List.{AllByRecursion};
ghost use Rattle.std.specs.Io.KnownBytes.{IsAtEnd};
ghost use Rattle.show_commands.specs.SeveralInputs.{AreFiles, AreReadOut, CollectFails};

use crate::input::read_input;
use command_line::ToolFault;
use std::alloc::Global;
use std::io::Read;
use tws_file::TwsFile;

/// Reads the solution files in several inputs to their ends, in order.
///
/// # Errors
///
/// The first input that fails decides. `Read` if it fails or does not end within `INPUT_READS` reads; `Unreadable` with
/// its number, counted from 0, and the fault of its bytes, once they were read to their end; `Memory` if an allocation
/// was refused.
pub fn read_inputs<R: Read>(alloc: Global, inputs: &mut [R]) -> Result<Vec<TwsFile>, ToolFault>
    ensures end { OnOk result (AllByRecursion (λ input. IsAtEnd (R.remaining input)) inputs.new) }
    ensures read { IfOk result (λ files. AreFiles (map (λ input. R.remaining input) inputs.old) files.items) }
    ensures fails { IfErr result (CollectFails (map (λ input. R.remaining input) inputs.old)) }
    ensures unreadable { IfErr result (AreReadOut (λ input. R.remaining input) inputs.new) }
{
    let mut files = Vec::new(alloc);
    for index in 0..inputs.len() {
        let file = read_input(alloc, index, &mut inputs[index])?;
        files.push(file)?;
    }
    Ok(files)
}
