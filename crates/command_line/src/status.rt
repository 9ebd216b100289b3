//! The exit statuses of the program.

/// The exit status of a program that has done what it was asked for.
pub const DONE: u8 = 0;

/// The exit status of a usage error.
pub const USAGE: u8 = 1;

/// The exit status of a fault of reading, writing, a socket or memory.
pub const FAILED: u8 = 2;

/// The exit status of an input that is not a solution file.
pub const UNREADABLE: u8 = 3;

/// The exit status of a transfer that failed.
pub const NOT_TRANSFERRED: u8 = 4;
