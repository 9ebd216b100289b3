//! A caller of `archive_wire`.

use archive_wire::{Wire, WireFault};
use tftp_packet::{Endpoint, Out, encode_ack};

/// Acknowledges a write request of this endpoint from a port of its own, and returns the port.
pub fn open_for_a_write<W: Wire>(wire: &mut W, to: Endpoint) -> Result<u16, WireFault> {
    let port = wire.open()?;
    wire.send(&Out {
        from_port: port,
        to,
        dgram: encode_ack(0),
    })?;
    Ok(port)
}
