//! What holds of every datagram and of every file in blocks, whatever code sends them. These functions do nothing: each
//! contract is a theorem.

ghost use Rattle.std.specs.Prelude.{◌≡◌, ◌⊎◌, ◌↔◌, ℕ, ◌+◌, ◌^◌, ◌<◌, ◌≤◌, List, ◌∷◌, ◌++◌, length, Ok, Err};
ghost use Rattle.std.specs.List.{concat};
ghost use Rattle.tftp_packet.specs.declared.packet_fault.PacketFault as fault;
ghost use Rattle.byte_output.specs.Bytes.{IsBytes};
ghost use Rattle.tftp_packet.specs.declared.refusal.Refusal.{Refusal as Refused};
ghost use Rattle.tftp_packet.specs.Refusal.{refusal_packet};
ghost use Rattle.tftp_packet.specs.Packet.{Packet, data_block, IsPacket, HasPacketFields, packet_size, encode};
ghost use Rattle.tftp_packet.specs.Fault.{HasPacketFault, IsFirstFault};
ghost use Rattle.tftp_packet.specs.Decode.{decode_bytes};
ghost use Rattle.tftp_packet.specs.Blocks.{block_count, block_of, first_blocks, blocks_to, blocks_of};
ghost use Rattle.tftp_packet.specs.declared.refusal.TheConstants.Refusal.{ALL};

use crate::sizes::{BLOCK_SIZE, MAX_DATAGRAM};

/// Each refusal is among all of them.
pub fn all_refusals()
    ensures { (r : Refused) → (before after : List Refused) × (ALL ≡ before ++ r ∷ after) }
{}

/// Bytes are at most one packet.
pub fn one_packet()
    ensures { (bytes : List ℕ) (p q : Packet) → IsPacket p bytes → IsPacket q bytes → p ≡ q }
{}

/// Bytes have at most one fault.
pub fn one_fault()
    ensures { (bytes : List ℕ) (d e : fault.PacketFault) → HasPacketFault bytes d → HasPacketFault bytes e → d ≡ e }
{}

/// The fault of bytes is the first, in the order of `PacketFault`, of all the checks that they fail.
pub fn first_fault()
    ensures { (bytes : List ℕ) (e : fault.PacketFault) → HasPacketFault bytes e ↔ IsFirstFault bytes e }
{}

/// The bytes of a packet have no fault.
pub fn packet_without_fault()
    ensures { (bytes : List ℕ) (p : Packet) (e : fault.PacketFault) → IsPacket p bytes → HasPacketFault bytes e → ⊥ }
{}

/// Bytes are a packet, or have a fault.
pub fn packet_or_fault()
    ensures { (bytes : List ℕ) → IsBytes bytes →
        ((p : Packet) × IsPacket p bytes) ⊎ ((e : fault.PacketFault) × HasPacketFault bytes e) }
{}

/// The decoding function returns the packet that bytes are, or the fault that they have.
pub fn function_and_relations()
    ensures packet { (bytes : List ℕ) (p : Packet) → IsBytes bytes →
        ((decode_bytes bytes ≡ Ok p) ↔ IsPacket p bytes) }
    ensures fault { (bytes : List ℕ) (e : fault.PacketFault) → IsBytes bytes →
        ((decode_bytes bytes ≡ Err e) ↔ HasPacketFault bytes e) }
{}

/// The bytes sent for a packet that fits in a datagram are that packet, and are decoded as it.
pub fn sent_packet()
    ensures packet { (p : Packet) → HasPacketFields p → packet_size p ≤ MAX_DATAGRAM → IsPacket p (encode p) }
    ensures decoded { (p : Packet) → HasPacketFields p → packet_size p ≤ MAX_DATAGRAM → decode_bytes (encode p) ≡ Ok p }
    ensures size { (p : Packet) → length (encode p) ≡ packet_size p }
{}

/// A decoded DATA has at most a block of bytes, whatever numbers are decoded.
pub fn data_size()
    ensures { (bytes : List ℕ) (n : ℕ) (body : List ℕ) → decode_bytes bytes ≡ Ok (data_block n body) → length body ≤ BLOCK_SIZE }
{}

/// Each ERROR that this server and its clients send is decoded as itself.
pub fn sent_refusal()
    ensures { (refusal : Refused) → decode_bytes (encode (refusal_packet refusal)) ≡ Ok (refusal_packet refusal) }
{}

/// The values of the sizes, which the definitions use by name.
pub fn size_values()
    ensures block { BLOCK_SIZE ≡ 512 }
    ensures datagram { MAX_DATAGRAM ≡ 516 }
{}

/// The first `r` blocks of a file and the next one are the first `r + 1` blocks.
pub fn next_block()
    ensures { (file : List ℕ) (r : ℕ) → first_blocks file r ++ block_of file (r + 1) ≡ first_blocks file (r + 1) }
{}

/// Every block but the last has `BLOCK_SIZE` bytes, and the last has fewer.
pub fn block_sizes()
    ensures full { (file : List ℕ) (k : ℕ) → 1 ≤ k → ((length (block_of file k) ≡ BLOCK_SIZE) ↔ (k < block_count file)) }
    ensures short { (file : List ℕ) (k : ℕ) → 1 ≤ k → ((length (block_of file k) < BLOCK_SIZE) ↔ (block_count file ≤ k)) }
    ensures most { (file : List ℕ) (k : ℕ) → length (block_of file k) ≤ BLOCK_SIZE }
{}

/// A short block ends the file.
pub fn file_end()
    ensures { (file : List ℕ) (k : ℕ) → 1 ≤ k → length (block_of file k) < BLOCK_SIZE → first_blocks file k ≡ file }
{}

/// Blocks 1 to `r` joined are the first `r * BLOCK_SIZE` bytes of the file, and all blocks joined are the file. The
/// block numbers of a file of at most 33,553,919 bytes fit in two bytes.
pub fn joined_blocks()
    ensures first { (file : List ℕ) (r : ℕ) → concat (blocks_to file r) ≡ first_blocks file r }
    ensures joined { (file : List ℕ) → concat (blocks_of file) ≡ file }
    ensures numbers { (file : List ℕ) → length file ≤ 33553919 → block_count file < 2 ^ 16 }
{}
