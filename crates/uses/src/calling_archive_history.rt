//! A caller of `archive_history`.

use archive_history::{HistoryFault, HistoryFolder, RecordOutcome, Stamp, record};
use std::alloc::Global;
use tftp_ends::Received;
use tftp_packet::Endpoint;
use tws_file::Ruleset;

/// Puts a file that was taken from a peer at this time into the history.
pub fn add<F: HistoryFolder>(
    alloc: Global,
    folder: &mut F,
    time: &Stamp,
    peer: Endpoint,
    ruleset: Ruleset,
    file: &Received,
) -> Result<RecordOutcome, HistoryFault> {
    record(alloc, folder, time, peer, ruleset, file)
}
