//! The limits of the two policies. Times are in microseconds.

/// Of how many hosts the last keep is remembered.
pub const HOSTS: usize = 64;

/// How many last blocks are held at most.
pub(crate) const HELD: usize = 64;

/// For how long a host that was heard counts as present.
pub const PRESENT: u64 = 1_000_000;

/// How long the pause after a keep is at most.
pub const PAUSE: u64 = 1_500_000;

/// For how long what is ready goes before a block that may be taken.
pub const PATIENCE: u64 = 50_000;

/// How often the first block of a file is sent to a peer that was never heard.
pub const TRIES: u8 = 2;

/// Of how many ports it is remembered that nothing was received there.
pub(crate) const UNHEARD: usize = 65;
