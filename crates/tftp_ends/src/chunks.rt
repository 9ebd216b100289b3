//! A file that grows block by block.

ghost use Rattle.std.specs.Prelude.{◌≡◌, ◌+◌, ◌%◌, ◌<◌, ◌≤◌, [], ◌∷◌, ◌++◌, length, IfErr, OnOk, OnErr};
ghost use Rattle.tftp_ends.specs.Chunks.{chunk_count, chunk_of};

use crate::limits::MAX_FILE;
use std::alloc::{AllocError, Allocator, Global};
use std::marker::Model;
use std::mem;
use tftp_packet::{BLOCK_SIZE, Owned};

/// The length in bytes of every chunk of a received file but the last. A block never spans two chunks.
pub const CHUNK_SIZE: usize = 16_384;

// The bytes of a file, as far as they have arrived, in chunks, so that no byte is moved once a chunk is full.
#[derive(Drop)]
#[derive_where(Debug)]
pub(crate) struct Chunks<A: Allocator = Global> {
    full: Vec<Owned<A>, A>,
    // The bytes after the full chunks. This chunk may be full too.
    last: Vec<u8, A>,
}

impl<A: Allocator> Model for Chunks<A> {
    ghost use Rattle.std.specs.Prelude.{ℕ, List};

    ghost Value = { List ℕ };

    ghost use Rattle.tftp_ends.specs.Held.{bytes_of, IsChunks};

    ghost view = { bytes_of };

    ghost invariant = { IsChunks };
}

impl<A: Allocator + Copy> Chunks<A> {
    // No bytes yet.
    pub(crate) fn new(alloc: A) -> Self
        ensures { result ≡ [] }
    {
        Chunks {
            full: Vec::new(alloc),
            last: Vec::new(alloc),
        }
    }

    // Appends a block, to the last chunk or to a new one. An empty block does not allocate. On error nothing changes.
    pub(crate) fn push_block(&mut self, block: &[u8]) -> Result<(), AllocError>
        requires short { length block.now ≤ BLOCK_SIZE }
        requires whole_blocks { length self.old % BLOCK_SIZE ≡ 0 }
        requires room { length self.old + length block.now ≤ MAX_FILE }
        ensures ok { OnOk result (self.new ≡ self.old ++ block.now) }
        ensures err { OnErr result (self.new ≡ self.old) }
        ensures grows { IfErr result (λ _. 1 ≤ length block.now) }
    {
        if block.is_empty() {
            return Ok(());
        }
        if self.last.len() == CHUNK_SIZE {
            return begin_chunk(&mut self.full, &mut self.last, block);
        }
        self.last.extend_from_slice(block)
    }
}

// Adds the last chunk to the full ones, and begins a new one with this block. The first chunk of a file grows as blocks
// arrive, so that a small file takes little memory; each other chunk is allocated at once.
fn begin_chunk<A: Allocator + Copy>(
    full: &mut Vec<Owned<A>, A>,
    last: &mut Vec<u8, A>,
    block: &[u8],
) -> Result<(), AllocError>
    ensures joins { OnOk result (full.new.items ≡ full.old.items ++ last.old.items ∷ []) }
    ensures begins { OnOk result (last.new.items ≡ block.now) }
    ensures full_stays { OnErr result (full.new.items ≡ full.old.items) }
    ensures last_stays { OnErr result (last.new.items ≡ last.old.items) }
{
    let alloc = *last.allocator();
    let mut next = Vec::with_capacity(alloc, CHUNK_SIZE)?;
    next.extend_from_slice(block)?;
    full.reserve(1)?;
    let done = mem::replace(last, next);
    if full.push(Owned::of(done)).is_err() {
        unreachable!();
    }
    Ok(())
}

impl<A: Allocator> Chunks<A> {
    // The number of bytes.
    pub(crate) fn len(&self) -> usize
        ensures count { result ≡ length self.now }
        ensures most { result ≤ MAX_FILE }
    {
        CHUNK_SIZE * self.full.len() + self.last.len()
    }

    // The number of chunks.
    pub(crate) fn chunk_count(&self) -> usize
        ensures { result ≡ chunk_count self.now }
    {
        if self.last.is_empty() {
            self.full.len()
        } else {
            self.full.len() + 1
        }
    }

    // Borrows a chunk.
    pub(crate) fn chunk(&self, i: usize) -> &[u8]
        requires { i < chunk_count self.now }
        ensures { result.now ≡ chunk_of self.now i }
    {
        if i < self.full.len() {
            self.full[i].as_slice()
        } else {
            self.last.as_slice()
        }
    }
}
