//! The limits of a server.

/// The fewest ports that a server may be given for transfers: twice as many as there are transfers at a time.
pub const LEAST_PORTS: u16 = 128;

/// The most turns that a server may be given: with quiet turns of 5 ms, two months. A server that is given this many runs
/// until it is stopped.
pub const TURNS: u64 = 1_000_000_000;

/// How many bytes a history may have, unless `serve` is given another number.
pub const HISTORY: u64 = 10_000_000_000;

/// The most bytes that `serve` may be given for a history.
pub(crate) const MAX_HISTORY: u64 = 1_000_000_000_000_000;

/// How many transfers one host may have, unless `serve` is given another number: half of the places.
pub const PER_HOST: u64 = 32;
