//! What a datagram means to a client in its phase.

/// What a datagram means to a client.
#[derive(Clone, Copy)]
pub(crate) enum Input<'a> {
    /// It has no effect.
    Nothing,
    /// A packet other than an ERROR, from a port of the server's host that the client is not bound to.
    Stray,
    /// An ERROR with this code, for the client.
    Refusal(u16),
    /// The ACK with this number, for the client.
    Ack(u16),
    /// The DATA with this number, for the client. The body has at most `BLOCK_SIZE` bytes.
    Data { n: u16, body: &'a [u8] },
}
