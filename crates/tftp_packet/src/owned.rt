//! A file in a vector.

ghost use Rattle.std.specs.Prelude.{◌≡◌};

use crate::blocks::Blocks;
use crate::sizes::BLOCK_SIZE;
use std::alloc::{Allocator, Global};
use std::marker::Model;

/// A file in a vector, seen as the list of its bytes.
#[derive(Drop)]
#[derive_where(Debug)]
pub struct Owned<A: Allocator = Global>(Vec<u8, A>);

impl<A: Allocator> Model for Owned<A> {
    ghost use Rattle.std.specs.Prelude.{ℕ, List};

    ghost Value = { List ℕ };

    ghost view = { λ o. o.0.items };
}

impl<A: Allocator> Owned<A> {
    /// The bytes of a vector as a file. Does not allocate.
    pub fn of(bytes: Vec<u8, A>) -> Self
        ensures { result ≡ bytes.items }
    {
        Owned(bytes)
    }

    /// Borrows the bytes, in order.
    pub fn as_slice(&self) -> &[u8]
        ensures { result.now ≡ self.now }
    {
        self.0.as_slice()
    }

    /// Returns the vector. Does not allocate.
    pub fn into_vec(self) -> Vec<u8, A>
        ensures { result.items ≡ self }
    {
        self.0
    }
}

impl<A: Allocator> Blocks for Owned<A> {
    ghost file = { λ o. o };

    fn file_len(&self) -> u64 {
        self.0.len() as u64
    }

    fn block(&self, k: u16, out: &mut [u8; BLOCK_SIZE]) -> usize {
        let start = BLOCK_SIZE * (usize::from(k) - 1);
        let rest = &self.0[start..];
        let count = rest.len().min(BLOCK_SIZE);
        out[..count].copy_from_slice(&rest[..count]);
        count
    }
}
