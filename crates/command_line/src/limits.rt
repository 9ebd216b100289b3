//! The limits on reading an input.

/// How often one input is read at most. An input has ended once a read returned no bytes, even the last one allowed.
pub const INPUT_READS: u32 = 1 << 26;

/// How many bytes one read of an input takes at most.
pub const INPUT_PIECE: usize = 1 << 14;
