//! The times at which the line is drawn.

/// How many milliseconds a transfer runs before the line is drawn.
pub const DELAY: u64 = 1000;

/// How many milliseconds pass at least until the line is drawn again.
pub const PAUSE: u64 = 100;
