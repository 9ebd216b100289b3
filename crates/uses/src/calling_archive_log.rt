//! A caller of `archive_log`.

use archive_history::HistoryFolder;
use archive_log::ServerLog;
use archive_table::{Keeper, Observer, Table};
use log::Log;
use std::time::Clock;
use tftp_packet::Endpoint;

/// Makes the step of a datagram at a transfer's port, and logs it.
pub fn handle_and_log<C: Clock, L: Log, H: HistoryFolder, K: Keeper>(
    table: &mut Table,
    keeper: &mut K,
    log: &mut ServerLog<C, L, H>,
    port: u16,
    from: Endpoint,
    bytes: &[u8],
) {
    let step = table.on_datagram(keeper, port, from, bytes);
    log.on_step(port, Some(from), &step, table);
}
