//! Hosts and ports.

/// The source or target of a datagram: an IPv4 address and a UDP port, which RFC 1350 section 4 calls a transfer
/// identifier.
#[derive(Clone, Copy, Debug, PartialEq, Eq, PartialOrd, Ord, Hash)]
pub struct Endpoint {
    /// The address as a number, with the first of its four parts in the highest byte: 127.0.0.1 is `0x7F00_0001`.
    pub host: u32,
    /// The port, which may have any value.
    pub port: u16,
}
