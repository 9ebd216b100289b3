//! A caller of `file_commands`.

ghost use Rattle.std.specs.Prelude.{[], IfOk, Some};
ghost use Rattle.tws_compare.specs.Without.{text_without};
ghost use Rattle.show_commands.specs.Written.{Writes};

use command_line::ToolFault;
use file_commands::run_without;
use std::alloc::Global;
use tws_file::Key;

/// A solution file without the solutions of a level.
pub fn mended(alloc: Global, level: Key, bytes: &[u8]) -> Result<Vec<u8>, ToolFault>
    ensures { IfOk result (λ text. Writes (text_without level) (Some bytes.now) (Some []) (Some text.items)) }
{
    let mut input = bytes;
    let mut out = Vec::new(alloc);
    let mut said: Vec<u8> = Vec::new(alloc);
    run_without(alloc, level, &mut input, &mut out, &mut said)?;
    Ok(out)
}
