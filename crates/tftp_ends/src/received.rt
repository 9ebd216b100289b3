//! A received file.

ghost use Rattle.std.specs.Prelude.{◌≡◌, ◌<◌, ◌≤◌, ◌+◌, ◌%◌, ◌++◌, [], length, IfOk, IfErr, OnOk, OnErr};
ghost use Rattle.std.specs.Io.KnownBytes.{Appends};
ghost use Rattle.byte_output.specs.Output.{AppendsPrefix};
ghost use Rattle.tftp_ends.specs.Chunks.{chunk_count, chunk_of};

use crate::chunks::{CHUNK_SIZE, Chunks};
use crate::limits::MAX_FILE;
use byte_output::{OutFault, put};
use std::alloc::{AllocError, Allocator, Global};
use std::io::Write;
use std::marker::Model;
use tftp_packet::{BLOCK_SIZE, Blocks};

/// A received file, seen as the list of its bytes. They are in chunks of `CHUNK_SIZE` bytes, except the last chunk,
/// which has 1 to `CHUNK_SIZE`; an empty file has no chunk. The file can be sent in blocks again.
#[derive(Drop)]
#[derive_where(Debug)]
pub struct Received<A: Allocator = Global> {
    chunks: Chunks<A>,
}

impl<A: Allocator> Model for Received<A> {
    ghost use Rattle.std.specs.Prelude.{ℕ, List};

    ghost Value = { List ℕ };

    ghost view = { λ r. r.chunks };
}

impl<A: Allocator + Copy> Received<A> {
    // No bytes yet.
    pub(crate) fn new(alloc: A) -> Self
        ensures { result ≡ [] }
    {
        Received {
            chunks: Chunks::new(alloc),
        }
    }

    // Appends the next block. An empty one does not allocate. On error nothing changes.
    pub(crate) fn push_block(&mut self, block: &[u8]) -> Result<(), AllocError>
        requires short { length block.now ≤ BLOCK_SIZE }
        requires whole_blocks { length self.old % BLOCK_SIZE ≡ 0 }
        requires room { length self.old + length block.now ≤ MAX_FILE }
        ensures ok { OnOk result (self.new ≡ self.old ++ block.now) }
        ensures err { OnErr result (self.new ≡ self.old) }
        ensures grows { IfErr result (λ _. 1 ≤ length block.now) }
    {
        self.chunks.push_block(block)
    }
}

impl<A: Allocator> Received<A> {
    /// The length in bytes, at most `MAX_FILE`.
    pub fn len(&self) -> u64
        ensures count { result ≡ length self.now }
        ensures most { result ≤ MAX_FILE }
    {
        self.chunks.len() as u64
    }

    /// The number of chunks.
    pub fn chunk_count(&self) -> usize
        ensures { result ≡ chunk_count self.now }
    {
        self.chunks.chunk_count()
    }

    /// Borrows chunk `i`, counted from 0 and below `chunk_count`: the bytes from `CHUNK_SIZE * i` up to `CHUNK_SIZE *
    /// (i + 1)` or the end.
    pub fn chunk(&self, i: usize) -> &[u8]
        requires { i < chunk_count self.now }
        ensures { result.now ≡ chunk_of self.now i }
    {
        self.chunks.chunk(i)
    }

    /// Copies the bytes to a vector.
    ///
    /// # Errors
    ///
    /// Fails if an allocation was refused.
    pub fn to_vec<C: Allocator>(&self, alloc: C) -> Result<Vec<u8, C>, AllocError>
        ensures { IfOk result (λ v. v.items ≡ self.now) }
    {
        let mut bytes = Vec::with_capacity(alloc, self.chunks.len())?;
        for i in 0..self.chunk_count() {
            bytes.extend_from_slice(self.chunk(i))?;
        }
        Ok(bytes)
    }

    /// Writes the bytes. Does not allocate.
    ///
    /// # Errors
    ///
    /// `Io` if the writer returns an error, or takes none of the remaining bytes. A proper prefix of the bytes was
    /// written.
    pub fn write_to<W: Write>(&self, out: &mut W) -> Result<(), OutFault>
        ensures ok { OnOk result (Appends (W.contents out.old) (W.contents out.new) self.now) }
        ensures err { OnErr result (AppendsPrefix (W.contents out.old) (W.contents out.new) self.now) }
        ensures io { IfErr result (λ e. e ≡ OutFault.Io) }
    {
        for i in 0..self.chunk_count() {
            put(out, self.chunk(i))?;
        }
        Ok(())
    }
}

impl<A: Allocator> Blocks for Received<A> {
    ghost file = { λ r. r };

    fn file_len(&self) -> u64 {
        self.len()
    }

    // No block spans two chunks.
    fn block(&self, k: u16, out: &mut [u8; BLOCK_SIZE]) -> usize {
        let start = BLOCK_SIZE * (usize::from(k) - 1);
        let i = start / CHUNK_SIZE;
        if i >= self.chunk_count() {
            return 0;
        }
        let chunk = self.chunk(i);
        let rest = &chunk[start % CHUNK_SIZE..];
        let count = rest.len().min(BLOCK_SIZE);
        out[..count].copy_from_slice(&rest[..count]);
        count
    }
}
