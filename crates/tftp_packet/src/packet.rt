//! The five packets.

/// A TFTP packet (RFC 1350 section 5). Its texts and its body are slices of the datagram that it was read from, without
/// the zero bytes that end the texts. The texts are bytes of any value but zero, and the body is bytes of any value: no
/// text encoding is assumed.
#[derive(Clone, Copy, Debug, PartialEq, Eq)]
pub enum Packet<'a> {
    /// A request to read a file, RRQ. The mode says how the file's bytes are transferred; `is_octet` recognises the one
    /// that this server supports. Both may be empty.
    Read { name: &'a [u8], mode: &'a [u8] },
    /// A request to write a file, WRQ, in the same form.
    Write { name: &'a [u8], mode: &'a [u8] },
    /// A block of a file, DATA: its number, counted from 1, and its bytes, at most `BLOCK_SIZE`. Fewer end the file.
    Data { block: u16, body: &'a [u8] },
    /// Acknowledges this block, ACK. ACK 0 replies to a request to write.
    Ack { block: u16 },
    /// Reports an error, ERROR: a code of RFC 1350, of which any value is accepted, and a human-readable message.
    Error { code: u16, text: &'a [u8] },
}
