//! The opcodes, which packets begin with (RFC 1350 section 5).

pub(crate) const READ: u16 = 1;

pub(crate) const WRITE: u16 = 2;

pub(crate) const DATA: u16 = 3;

pub(crate) const ACK: u16 = 4;

pub(crate) const ERROR: u16 = 5;
