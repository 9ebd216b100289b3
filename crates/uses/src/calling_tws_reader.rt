//! A caller of `tws_reader`.

ghost use Rattle.std.specs.Prelude.{OnOk};
ghost use Rattle.tws_file.specs.Text.{IsReadable};

use std::alloc::Global;
use tws_file::FileFault;
use tws_reader::read_file;

/// How many records a solution file has.
pub fn record_count(alloc: Global, bytes: &[u8]) -> Result<usize, FileFault>
    ensures { OnOk result (IsReadable bytes.now) }
{
    let file = read_file(alloc, bytes)?;
    Ok(file.records.len())
}
