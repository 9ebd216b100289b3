//! A caller of `tws_best`.

use std::alloc::{AllocError, Global};
use tws_best::{Collection, Snapshot};
use tws_file::{Ruleset, TwsFile};

/// The best solutions of a file as a snapshot, which is sent in blocks; `None` if their text is too long for that.
pub fn best_blocks(alloc: Global, file: &TwsFile) -> Result<Option<Snapshot>, AllocError> {
    let mut collection = Collection::new(alloc, Ruleset::Lynx);
    collection.merge(file)?;
    if collection.text_len() > u128::from(u64::MAX) {
        return Ok(None);
    }
    Ok(Some(collection.snapshot()?))
}
