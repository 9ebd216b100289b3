//! After how long an end of a transfer times out.

/// After how many quiet turns a transfer or a client times out, since it was opened or last sent. Turns that are not
/// quiet leave the count unchanged.
pub const QUIET_TURNS: u64 = 200;

/// After how many milliseconds of the wire's clock a transfer or a client times out in rounds, since it was opened or last
/// sent to its peer.
pub const TIMEOUT: u64 = 1000;
