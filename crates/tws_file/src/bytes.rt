//! Bytes that are kept as they are.

ghost use Rattle.std.specs.Prelude.{◌≡◌, ℕ, List, [], length, IsTrue, ◌↔◌};
ghost use Rattle.byte_output.specs.Bytes.{IsBytes};

use std::alloc::{Allocator, Global};
use std::marker::Model;

/// Bytes of a file that are kept as they are.
#[derive(Drop)]
#[derive_where(Debug)]
pub struct Bytes<A: Allocator = Global> {
    bytes: Vec<u8, A>,
}

impl<A: Allocator> Model for Bytes<A> {
    ghost Value = { List ℕ };

    ghost view = { λ b. b.bytes.items };
}

impl<A: Allocator> Bytes<A> {
    /// The bytes of a vector. Does not allocate.
    pub fn of(bytes: Vec<u8, A>) -> Self
        ensures list { result ≡ bytes.items }
        ensures bytes { IsBytes result }
    {
        Bytes { bytes }
    }

    /// Borrows the bytes, in order.
    pub fn as_slice(&self) -> &[u8]
        ensures list { result.now ≡ self.now }
    {
        self.bytes.as_slice()
    }

    /// Returns the vector. Does not allocate.
    pub fn into_vec(self) -> Vec<u8, A>
        ensures { result.items ≡ self }
    {
        self.bytes
    }

    /// The number of bytes.
    pub fn len(&self) -> usize
        ensures { result ≡ length self.now }
    {
        self.bytes.len()
    }

    /// Whether there are none.
    pub fn is_empty(&self) -> bool
        ensures { IsTrue result ↔ (self.now ≡ []) }
    {
        self.bytes.is_empty()
    }
}
