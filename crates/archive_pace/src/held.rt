//! A last block that is held.

ghost use Rattle.std.specs.Prelude.{◌≤◌, length};
ghost use Rattle.archive_wire.specs.declared.wire.TheConstants.{RECEIVE_SIZE};

use tftp_packet::Endpoint;
use tws_file::Bytes;

// A last block that has come at a port, and was not handed out yet.
#[derive(Drop)]
pub(crate) struct Held {
    pub(crate) port: u16,
    pub(crate) from: Endpoint,
    // When it came, in microseconds.
    pub(crate) came: u64,
    pub(crate) bytes: Bytes,
    ghost short: { length bytes ≤ RECEIVE_SIZE },
}
