//! A caller of `web_arena`.

use std::alloc::AllocError;
use web_arena::{Arena, Region};

/// How long a text is, counted in a copy in memory that a host gave.
pub fn length_of_copy(memory: Region, text: &[u8]) -> Result<usize, AllocError> {
    let arena = Arena::new(memory);
    let copy = Vec::from_slice(&arena, text)?;
    Ok(copy.len())
}
