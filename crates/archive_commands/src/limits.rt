//! The limits of the commands.

/// The most rounds that a client makes, each of which waits `TIMEOUT` milliseconds of `archive_wire` at most.
pub const ROUNDS: u64 = 1_000_000_000;
