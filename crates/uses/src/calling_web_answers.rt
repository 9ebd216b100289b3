//! A caller of `web_answers`.

use std::alloc::{AllocError, Global};
use web_answers::compared;

/// The comparison of two files, or why there is none, in words.
pub fn comparison_or_why(alloc: Global, mine: &[u8], theirs: &[u8]) -> Result<Vec<u8>, AllocError> {
    match compared(alloc, mine, theirs) {
        Ok(text) => Ok(text),
        Err(fault) => Ok(format!(in alloc; "{fault}")?.into_bytes()),
    }
}
