//! A caller of `tws_tables`.

ghost use Rattle.std.specs.Prelude.{◌≡◌, IfOk};
ghost use Rattle.tws_tables.specs.Csv.{csv_of};

use std::alloc::Global;
use tws_file::TwsFile;
use tws_tables::{OutFault, write_csv};

/// The solutions of a file as comma-separated values.
pub fn csv_text(alloc: Global, file: &TwsFile) -> Result<Vec<u8>, OutFault>
    ensures { IfOk result (λ text. text.items ≡ csv_of file.now) }
{
    let mut text = Vec::new(alloc);
    write_csv(alloc, file, &mut text)?;
    Ok(text)
}
