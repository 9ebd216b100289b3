//! A caller of `tws_compare`.

use std::alloc::Global;
use tws_compare::{CompareFault, compare, comparison_text};
use tws_file::TwsFile;

/// How my file compares with theirs, as text.
pub fn compared(alloc: Global, mine: &TwsFile, theirs: &TwsFile) -> Result<String, CompareFault> {
    let rows = compare(alloc, mine, theirs)?;
    Ok(comparison_text(alloc, &rows)?)
}
