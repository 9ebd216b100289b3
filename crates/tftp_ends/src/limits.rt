//! Limits on the length of a file, and on how long an end waits.

use tftp_packet::BLOCK_SIZE;

/// The greatest number of blocks in a file: as many as two bytes can number. No block number wraps.
pub const MAX_BLOCKS: u16 = 65_535;

/// The greatest length of a file in bytes: the last block is not full.
pub const MAX_FILE: u64 = BLOCK_SIZE as u64 * MAX_BLOCKS as u64 - 1;

/// The number of time-outs in a row, without progress between them, that end a transfer.
pub const MISSES: u8 = 5;

/// The number of time-outs that a receiver waits after the last block, in case its last ACK was lost.
pub const DALLY: u8 = 2;
