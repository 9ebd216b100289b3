//! Which port a server visits next.

/// What a server visits next.
#[derive(Clone, Copy, Debug, PartialEq, Eq)]
pub enum Next {
    /// Its request port.
    Request,
    /// The port of a transfer.
    Transfer(u16),
    /// No port: none was ready.
    Nowhere,
}
