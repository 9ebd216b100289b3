//! A caller of `archive_table`.

use archive_table::{Step, Table};
use tftp_packet::{Endpoint, Out};

/// What is sent for a datagram at the request port; nothing if the spare port is in use. One at a live port goes to
/// `on_datagram`, and a time-out to `on_timeout`; a port whose step is `closed` is no longer used.
pub fn answer(table: &mut Table, spare: u16, from: Endpoint, bytes: &[u8]) -> Option<Out> {
    if spare == table.request() || table.is_live(spare) {
        return None;
    }
    let Step { out, .. } = table.on_request(spare, from, bytes);
    out
}
