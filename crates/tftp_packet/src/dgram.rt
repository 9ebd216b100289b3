//! The bytes of a datagram.

ghost use Rattle.std.specs.Prelude.{◌≡◌, ◌+◌, ◌≤◌, [], ◌∷◌, ◌++◌, length, take, ⊤};
ghost use Rattle.byteorder.specs.Endian.{big_bytes};
ghost use Rattle.tftp_packet.specs.Blocks.{block_of, block_count};

use crate::blocks::Blocks;
use crate::sizes::{BLOCK_SIZE, MAX_DATAGRAM};
use byteorder::{BigEndian, ByteOrder};
use std::alloc::AllocError;
use std::marker::Model;

/// The bytes of a datagram, at most `MAX_DATAGRAM` of them: a list, which only the `encode` functions make. Held in a
/// fixed buffer, without allocating.
#[derive(Debug, Drop)]
pub struct Dgram {
    buffer: [u8; MAX_DATAGRAM],
    len: usize,
}

impl Model for Dgram {
    ghost use Rattle.std.specs.Prelude.{ℕ, ◌≤◌, List, take};

    ghost Value = { List ℕ };

    ghost view = { λ d. take d.len d.buffer };

    ghost use Rattle.tftp_packet.specs.declared.sizes.TheConstants.{MAX_DATAGRAM};

    ghost invariant = { λ d. d.len ≤ MAX_DATAGRAM };
}

// Writes block `k` of a file after the first four bytes, and returns how many bytes the block has.
fn put_block<B: Blocks>(buffer: &mut [u8; MAX_DATAGRAM], blocks: &B, k: u16) -> usize
    requires first { 1 ≤ k }
    requires last { k ≤ block_count (B.file blocks.now) }
    ensures bytes { take (4 + result) buffer.new ≡ take 4 buffer.old ++ block_of (B.file blocks.now) k }
    ensures most { result ≤ BLOCK_SIZE }
{
    let Some(room) = buffer.last_chunk_mut::<BLOCK_SIZE>() else {
        unreachable!();
    };
    blocks.block(k, room)
}

impl Dgram {
    /// A datagram with only its opcode so far.
    pub(crate) fn of_opcode(opcode: u16) -> Self
        ensures { result ≡ big_bytes 2 opcode }
    {
        let mut dgram = Dgram {
            buffer: [0; MAX_DATAGRAM],
            len: 2,
        };
        BigEndian::write_u16(&mut dgram.buffer, opcode);
        dgram
    }

    /// Appends bytes.
    pub(crate) fn push_bytes(&mut self, bytes: &[u8])
        requires { length self.old + length bytes.now ≤ MAX_DATAGRAM }
        ensures { self.new ≡ self.old ++ bytes.now }
    {
        let end = self.len + bytes.len();
        self.buffer[self.len..end].copy_from_slice(bytes);
        self.len = end;
    }

    /// Appends a number in two bytes.
    pub(crate) fn push_number(&mut self, number: u16)
        requires { length self.old + 2 ≤ MAX_DATAGRAM }
        ensures { self.new ≡ self.old ++ big_bytes 2 number }
    {
        let mut bytes = [0; 2];
        BigEndian::write_u16(&mut bytes, number);
        self.push_bytes(&bytes);
    }

    /// Appends a text and the zero byte that ends it.
    pub(crate) fn push_text(&mut self, text: &[u8])
        requires { length self.old + length text.now + 1 ≤ MAX_DATAGRAM }
        ensures { self.new ≡ self.old ++ (text.now ++ 0 ∷ []) }
    {
        self.push_bytes(text);
        self.push_bytes(&[0]);
    }

    /// Appends block `k` of a file after the opcode and the block number. The file writes it there itself.
    pub(crate) fn push_block<B: Blocks>(&mut self, blocks: &B, k: u16)
        requires header { length self.old ≡ 4 }
        requires first { 1 ≤ k }
        requires last { k ≤ block_count (B.file blocks.now) }
        ensures { self.new ≡ self.old ++ block_of (B.file blocks.now) k }
    {
        self.len = 4 + put_block(&mut self.buffer, blocks, k);
    }

    /// The bytes, in order.
    pub fn bytes(&self) -> &[u8]
        ensures list { result.now ≡ self.now }
        ensures size { length self.now ≤ MAX_DATAGRAM }
    {
        &self.buffer[..self.len]
    }
}

// A copy does not allocate, so it never fails.
impl Clone for Dgram {
    ghost is_clone = { λ x y. y ≡ x };

    ghost is_infallible = { λ _. ⊤ };

    fn clone(&self) -> Result<Self, AllocError> {
        Ok(Dgram {
            buffer: self.buffer,
            len: self.len,
        })
    }
}
