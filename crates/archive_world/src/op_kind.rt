//! What a client is to do.

ghost use Rattle.std.specs.Prelude.{◌≡◌, IfOk};
ghost use Rattle.archive_world.specs.View.{operation_of};

use std::alloc::{AllocError, Allocator, Global};
use tws_file::{Bytes, Ruleset};

/// What a client is to do.
#[derive(Drop)]
#[derive_where(Debug)]
pub enum OpKind<A: Allocator = Global> {
    /// Sends this file.
    Put(Bytes<A>),
    /// Fetches the collection of this ruleset.
    Get(Ruleset),
}

impl<A: Allocator> OpKind<A> {
    /// A copy of it.
    ///
    /// # Errors
    ///
    /// Out of memory.
    pub(crate) fn copy<B: Allocator>(&self, alloc: B) -> Result<OpKind<B>, AllocError>
        ensures { IfOk result (λ k. operation_of k ≡ operation_of self.now) }
    {
        match self {
            OpKind::Put(file) => {
                let file = Vec::from_slice(alloc, file.as_slice())?;
                Ok(OpKind::Put(Bytes::of(file)))
            }
            OpKind::Get(ruleset) => Ok(OpKind::Get(*ruleset)),
        }
    }
}
