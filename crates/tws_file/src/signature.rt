//! The signature of solution files.

/// The bytes that every solution file begins with.
pub const SIGNATURE: [u8; 4] = [0x35, 0x33, 0x9B, 0x99];
