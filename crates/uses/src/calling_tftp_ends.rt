//! A caller of `tftp_ends`.

use tftp_ends::{Received, Receiver, RecvFault};
use tftp_packet::{Dgram, Packet, decode};

/// What a receiver sends for a DATA, and the file once all of it has arrived.
pub fn receive(
    receiver: &mut Receiver,
    datagram: &[u8],
) -> Result<(Option<Dgram>, Option<Received>), RecvFault> {
    match decode(datagram) {
        Ok(Packet::Data { block, body }) => {
            let ack = receiver.on_data(block, body)?;
            Ok((ack, receiver.take_file()))
        }
        _ => Ok((None, None)),
    }
}
