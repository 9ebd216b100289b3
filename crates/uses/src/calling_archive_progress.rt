//! A caller of `archive_progress`.

use archive_progress::ProgressWire;
use archive_runs::{RunFault, put_in_rounds};
use archive_wire::ReadyWire;
use std::alloc::Global;
use std::io::Write;
use tftp_packet::Endpoint;

/// Puts a file over a wire, and shows on a terminal how far it has come. Returns the file's length in bytes.
pub fn put_shown<N: ReadyWire + Drop, T: Write + Drop>(
    alloc: Global,
    wire: N,
    terminal: T,
    server: Endpoint,
    file: Vec<u8>,
) -> Result<u64, RunFault> {
    let mut wire = ProgressWire::new(alloc, wire, Some(terminal));
    wire.begin(Some(file.len() as u64));
    let sent = put_in_rounds(&mut wire, server, file, 1000);
    wire.finish();
    sent
}
