//! A caller of `tws_pages`.

ghost use Rattle.std.specs.Prelude.{◌≡◌, IfOk};
ghost use Rattle.tws_pages.specs.Page.{page_of};

use std::alloc::Global;
use tws_file::TwsFile;
use tws_pages::{OutFault, write_page};

/// The solutions of files as a page.
pub fn page_text(alloc: Global, files: &[TwsFile]) -> Result<Vec<u8>, OutFault>
    ensures { IfOk result (λ text. text.items ≡ page_of files.now) }
{
    let mut text = Vec::new(alloc);
    write_page(alloc, files, &mut text)?;
    Ok(text)
}
