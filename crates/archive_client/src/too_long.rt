//! The fault of a file that has too many blocks.

use std::alloc::{Allocator, Global};

/// A file of more than `MAX_FILE` bytes, which has more blocks than can be numbered. Nothing was started.
#[derive(Drop)]
#[derive_where(Debug)]
pub struct TooLong<A: Allocator = Global> {
    /// The file, unchanged.
    pub file: Vec<u8, A>,
}
