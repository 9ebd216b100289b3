//! Filling a block of `BLOCK_SIZE` bytes from the records of a text.

ghost use Rattle.std.specs.Prelude.{◌≡◌, ◌+◌, ◌≤◌, ◌++◌, length, take, drop};
ghost use Rattle.std.specs.List.{flat_map};
ghost use Rattle.tws_best.specs.Best.{body_text};

use crate::body::Body;
use crate::text::size_bytes;
use std::alloc::Allocator;
use tftp_packet::BLOCK_SIZE;

// Appends bytes to the first `len` of a block, which has room for them. Returns the new length.
fn put(block: &mut [u8; BLOCK_SIZE], len: usize, bytes: &[u8]) -> usize
    requires { len + length bytes.now ≤ BLOCK_SIZE }
    ensures bytes { take result block.new ≡ take len block.old ++ bytes.now }
    ensures count { result ≡ len + length bytes.now }
{
    let end = len + bytes.len();
    block[len..end].copy_from_slice(bytes);
    end
}

// Appends bytes to the first `len` of a block, as far as there is room. Returns the new length.
pub(crate) fn put_part(block: &mut [u8; BLOCK_SIZE], len: usize, bytes: &[u8]) -> usize
    requires { len ≤ BLOCK_SIZE }
    ensures bytes { take result block.new ≡ take BLOCK_SIZE (take len block.old ++ bytes.now) }
    ensures most { result ≤ BLOCK_SIZE }
{
    let count = bytes.len().min(BLOCK_SIZE - len);
    put(block, len, &bytes[..count])
}

// Appends a record without its first `skip` bytes, as far as there is room. Returns the new length.
pub(crate) fn put_record<A: Allocator>(
    block: &mut [u8; BLOCK_SIZE],
    len: usize,
    body: &Body<A>,
    skip: usize,
) -> usize
    requires room { len ≤ BLOCK_SIZE }
    requires skip { skip ≤ length (body_text body.now) }
    ensures bytes { take result block.new ≡ take BLOCK_SIZE (take len block.old ++ drop skip (body_text body.now)) }
    ensures most { result ≤ BLOCK_SIZE }
{
    if skip < 4 {
        let with_size = put_part(block, len, &size_bytes(body)[skip..]);
        put_part(block, with_size, body.as_slice())
    } else {
        put_part(block, len, &body.as_slice()[skip - 4..])
    }
}

// Appends the records of these bodies, as far as there is room. Returns the new length.
pub(crate) fn put_bodies<A: Allocator>(
    block: &mut [u8; BLOCK_SIZE],
    len: usize,
    bodies: &[Body<A>],
) -> usize
    requires { len ≤ BLOCK_SIZE }
    ensures bytes { take result block.new ≡ take BLOCK_SIZE (take len block.old ++ flat_map body_text bodies.now) }
    ensures most { result ≤ BLOCK_SIZE }
{
    let mut end = len;
    for body in bodies {
        if end == BLOCK_SIZE {
            return end;
        }
        end = put_record(block, end, body, 0);
    }
    end
}
