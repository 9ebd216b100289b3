//! Datagrams that are on their way to a wire in memory.

ghost use Rattle.std.specs.Prelude.{◌≤◌, length};
ghost use Rattle.archive_wire.specs.declared.wire.TheConstants.{RECEIVE_SIZE};

use std::alloc::{Allocator, Global};
use tftp_packet::Endpoint;
use tws_file::Bytes;

// A datagram that has arrived at a port and was not received yet.
#[derive(Drop)]
#[derive_where(Debug)]
pub(crate) struct Arrival<A: Allocator = Global> {
    pub(crate) port: u16,
    pub(crate) from: Endpoint,
    pub(crate) bytes: Bytes<A>,
    ghost short: { length bytes ≤ RECEIVE_SIZE },
}
