//! A caller of `show_commands`.

ghost use Rattle.std.specs.Prelude.{[], true, IfOk, Some};
ghost use Rattle.tws_tables.specs.Listing.{listing_of};
ghost use Rattle.show_commands.specs.Written.{Writes};

use command_line::ToolFault;
use show_commands::run_show;
use std::alloc::Global;

/// The listing of a solution file, with a line for each move.
pub fn listing(alloc: Global, bytes: &[u8]) -> Result<Vec<u8>, ToolFault>
    ensures { IfOk result (λ text. Writes (listing_of true) (Some bytes.now) (Some []) (Some text.items)) }
{
    let mut input = bytes;
    let mut out = Vec::new(alloc);
    run_show(alloc, &mut input, &mut out, true)?;
    Ok(out)
}
