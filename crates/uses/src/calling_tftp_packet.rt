//! A caller of `tftp_packet`.

use tftp_packet::{Dgram, Packet, decode, encode_ack};

/// The ACK for a DATA; `None` for any other datagram.
pub fn acknowledge(datagram: &[u8]) -> Option<Dgram> {
    match decode(datagram) {
        Ok(Packet::Data { block, .. }) => Some(encode_ack(block)),
        _ => None,
    }
}
