//! Files in blocks.

ghost use Rattle.std.specs.Prelude.{◌≡◌, ℕ, ◌≤◌, List, length, take};
ghost use Rattle.tftp_packet.specs.Blocks.{block_of, block_count};

use crate::sizes::BLOCK_SIZE;
use std::alloc::Allocator;
use std::rc::Rc;

/// A file that can be sent in blocks (RFC 1350 sections 2 and 6): every block but the last has `BLOCK_SIZE` bytes, and
/// the last has fewer. So a file whose length is a multiple of `BLOCK_SIZE` ends with an empty block. No call of this
/// trait allocates or changes the file.
pub trait Blocks {
    /// The bytes of the file.
    ghost file: { Self → List ℕ };

    /// The length of the file in bytes. The file has one block more than it has full blocks.
    fn file_len(&self) -> u64
        ensures { result ≡ length (file self.now) };

    /// Writes the bytes of block `k` to the start of `out`, and returns how many they are: `BLOCK_SIZE`, or fewer in
    /// the last block. Blocks are counted from 1, and `k` is at most the number of blocks. The contents of `out` after
    /// these bytes are unspecified.
    fn block(&self, k: u16, out: &mut [u8; BLOCK_SIZE]) -> usize
        requires first { 1 ≤ k }
        requires last { k ≤ block_count (file self.now) }
        ensures count { result ≡ length (block_of (file self.now) k) }
        ensures most { result ≤ BLOCK_SIZE }
        ensures bytes { take result out.new ≡ block_of (file self.now) k };
}

/// A file that several senders share.
impl<B: Blocks, A: Allocator> Blocks for Rc<B, A> {
    ghost file = { λ shared. B.file shared.value };

    fn file_len(&self) -> u64 {
        self.as_ref().file_len()
    }

    fn block(&self, k: u16, out: &mut [u8; BLOCK_SIZE]) -> usize {
        self.as_ref().block(k, out)
    }
}
