//! The limits of the port.

/// The default request port, which needs no privileges.
pub const PORT: u16 = 6969;

/// The greatest port.
pub const MAX_PORT: u16 = 65535;
