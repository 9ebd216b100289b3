//! Standard input, where it is among several inputs.

ghost use Rattle.std.specs.Prelude.{◌≡◌, IfOk, IfErr, IfSome, OnOk};
ghost use Rattle.std.specs.Io.KnownBytes.{IsAtEnd};
ghost use Rattle.command_line.specs.Faults.{IsReadFault};
ghost use Rattle.command_line.specs.Inputs.{has_standard};

use command_line::{Source, ToolFault, read_to_end};
use std::alloc::Global;
use std::io::Read;

/// Whether standard input is among these.
pub(crate) fn has_standard(sources: &[Source]) -> bool
    ensures { result ≡ has_standard sources.now }
{
    sources
        .iter()
        .any(|source| matches!(source, Source::Standard))
}

/// Reads all bytes of an input.
///
/// # Errors
///
/// `Read` if the reader fails or does not end within `INPUT_READS` reads, `Memory` if an allocation was refused.
pub fn read_bytes<R: Read>(alloc: Global, input: &mut R) -> Result<Vec<u8>, ToolFault>
    ensures bytes { IfOk result (λ bytes. IfSome (R.remaining input.old) (λ xs. bytes.items ≡ xs)) }
    ensures end { OnOk result (IsAtEnd (R.remaining input.new)) }
    ensures fault { IfErr result IsReadFault }
{
    let mut bytes = Vec::new(alloc);
    read_to_end(input, &mut bytes)?;
    Ok(bytes)
}
