//! The greatest number of transfers.

/// The greatest number of transfers that a server has at a time.
pub const LIVE: usize = 64;
