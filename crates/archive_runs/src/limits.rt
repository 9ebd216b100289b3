//! How long a get dallies.

/// How many milliseconds a get that makes rounds waits for a repeated last block, since it had the file or last
/// acknowledged that block.
pub const DALLY_PAUSE: u64 = 250;

/// How many milliseconds a get waits for repeated last blocks at most.
pub const DALLY_LIMIT: u64 = 2000;
