//! The sizes of blocks and datagrams.

/// The length in bytes of every block of a file but the last, which has fewer (RFC 1350 section 2).
pub const BLOCK_SIZE: usize = 512;

/// The greatest length of a datagram: the opcode and block number of a DATA, two bytes each, and a block.
pub const MAX_DATAGRAM: usize = 4 + BLOCK_SIZE;
