//! TFTP: exactly what a datagram is, and how a file is cut into blocks. The protocol is that of RFC 1350; what follows
//! a request's mode, such as the options of RFC 2347, is not read. Nothing here allocates. README.md has a caller, and
//! what is proved.
//!
//! Read `specs/Packet.antt` first: it defines the packets, and the bytes of each. `specs/Blocks.antt` defines the
//! blocks of a file. `laws` has what holds of every datagram and every file.
//!
//! `decoding` goes from bytes to packets, `encoding` from packets to the bytes of a `dgram`; `refusal` has the errors
//! that are sent, and `cause` why a transfer failed. `blocks` is a file in blocks, `owned` one in a vector.
#![tactic(auto)]

mod blocks;
mod cause;
mod decoding;
mod dgram;
mod encoding;
mod endpoint;
mod laws;
mod mode;
mod opcode;
mod out;
mod owned;
mod packet;
mod packet_fault;
mod refusal;
mod sizes;

pub use blocks::Blocks;
pub use cause::Cause;
pub use decoding::decode;
pub use dgram::Dgram;
pub use encoding::{
    encode_ack, encode_block, encode_data, encode_error, encode_read, encode_write,
};
pub use endpoint::Endpoint;
pub use laws::{
    all_refusals, block_sizes, data_size, file_end, first_fault, function_and_relations,
    joined_blocks, next_block, one_fault, one_packet, packet_or_fault, packet_without_fault,
    sent_packet, sent_refusal, size_values,
};
pub use mode::is_octet;
pub use out::Out;
pub use owned::Owned;
pub use packet::Packet;
pub use packet_fault::PacketFault;
pub use refusal::Refusal;
pub use sizes::{BLOCK_SIZE, MAX_DATAGRAM};
