//! A caller of `tws_file`.

ghost use Rattle.std.specs.Prelude.{◌≡◌, IfOk};
ghost use Rattle.tws_file.specs.Packing.{packed_text};

use std::alloc::Global;
use tws_file::{OutFault, TwsFile, pack, write_file};

/// The text of a solution file with its moves in the fewest bytes.
pub fn packed(alloc: Global, file: &TwsFile) -> Result<Vec<u8>, OutFault>
    ensures { IfOk result (λ text. text.items ≡ packed_text file.now) }
{
    let packed = pack(alloc, file)?;
    let mut text = Vec::new(alloc);
    write_file(&packed, &mut text)?;
    Ok(text)
}
