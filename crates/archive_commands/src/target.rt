//! Where a file is sent or fetched.

/// Where an archive is.
#[derive(Drop)]
pub struct Target {
    /// The server's address, as it was typed.
    pub address: String,
    /// The server's port.
    pub port: u16,
}
