//! Encoding packets.

ghost use Rattle.std.specs.Prelude.{◌≡◌, ◌≤◌, [], length};
ghost use Rattle.tftp_packet.specs.Blocks.{block_of, block_count};
ghost use Rattle.tftp_packet.specs.Packet.{read, write, data_block, ack, error, octet, HasNoZero, IsPacket, encode, request_bytes};

use crate::blocks::Blocks;
use crate::dgram::Dgram;
use crate::opcode::{ACK, DATA, ERROR, READ, WRITE};
use crate::sizes::BLOCK_SIZE;

// A request in mode octet.
fn encode_request(opcode: u16, name: &[u8]) -> Dgram
    requires { length name.now ≤ 507 }
    ensures { result ≡ request_bytes opcode name.now octet [] }
{
    let mut dgram = Dgram::of_opcode(opcode);
    dgram.push_text(name);
    dgram.push_text(b"octet");
    dgram
}

/// Encodes an RRQ (RFC 1350 section 5), without options: a request to read the file with this name, in mode octet. The name
/// has no zero byte, and at most 507 bytes, so that the request fits in a datagram.
#[tactic(auto, unfolding(crate::specs::Packet::encode))]
pub fn encode_read(name: &[u8]) -> Dgram
    requires short { length name.now ≤ 507 }
    requires no_zero { HasNoZero name.now }
    ensures bytes { result ≡ encode (read name.now octet) }
    ensures packet { IsPacket (read name.now octet) result }
{
    encode_request(READ, name)
}

/// Encodes a WRQ (RFC 1350 section 5), without options: a request to write a file under this name, in mode octet. The name
/// has no zero byte, and at most 507 bytes.
#[tactic(auto, unfolding(crate::specs::Packet::encode))]
pub fn encode_write(name: &[u8]) -> Dgram
    requires short { length name.now ≤ 507 }
    requires no_zero { HasNoZero name.now }
    ensures bytes { result ≡ encode (write name.now octet) }
    ensures packet { IsPacket (write name.now octet) result }
{
    encode_request(WRITE, name)
}

/// Encodes a DATA (RFC 1350 section 5): the block of a file with this number and body, which has at most `BLOCK_SIZE` bytes.
#[tactic(auto, unfolding(crate::specs::Packet::encode))]
pub fn encode_data(block: u16, body: &[u8]) -> Dgram
    requires { length body.now ≤ BLOCK_SIZE }
    ensures bytes { result ≡ encode (data_block block body.now) }
    ensures packet { IsPacket (data_block block body.now) result }
{
    let mut dgram = Dgram::of_opcode(DATA);
    dgram.push_number(block);
    dgram.push_bytes(body);
    dgram
}

/// Encodes the DATA (RFC 1350 section 5) of block `k` of a file, counted as in `Blocks`. The file writes the block in
/// place, so that it is copied only once.
#[tactic(auto, unfolding(crate::specs::Packet::encode))]
pub fn encode_block<B: Blocks>(blocks: &B, k: u16) -> Dgram
    requires first { 1 ≤ k }
    requires last { k ≤ block_count (B.file blocks.now) }
    ensures bytes { result ≡ encode (data_block k (block_of (B.file blocks.now) k)) }
    ensures packet { IsPacket (data_block k (block_of (B.file blocks.now) k)) result }
{
    let mut dgram = Dgram::of_opcode(DATA);
    dgram.push_number(k);
    dgram.push_block(blocks, k);
    dgram
}

/// Encodes an ACK (RFC 1350 section 5) of this block. ACK 0 replies to a request to write.
#[tactic(auto, unfolding(crate::specs::Packet::encode))]
pub fn encode_ack(block: u16) -> Dgram
    ensures bytes { result ≡ encode (ack block) }
    ensures packet { IsPacket (ack block) result }
{
    let mut dgram = Dgram::of_opcode(ACK);
    dgram.push_number(block);
    dgram
}

/// Encodes an ERROR (RFC 1350 section 5), with nothing after its text. The text has no zero byte, and at most 511 bytes.
#[tactic(auto, unfolding(crate::specs::Packet::encode))]
pub fn encode_error(code: u16, text: &[u8]) -> Dgram
    requires short { length text.now ≤ 511 }
    requires no_zero { HasNoZero text.now }
    ensures bytes { result ≡ encode (error code text.now) }
    ensures packet { IsPacket (error code text.now) result }
{
    let mut dgram = Dgram::of_opcode(ERROR);
    dgram.push_number(code);
    dgram.push_text(text);
    dgram
}
