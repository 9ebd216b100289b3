//! A caller of `archive_runs`.

use archive_runs::{RunFault, run_get};
use archive_wire::Wire;
use std::alloc::Global;
use std::io::Write;
use tftp_packet::Endpoint;
use tws_file::Ruleset;

/// Fetches the Lynx collection of a server into a writer, over any wire. Returns its length in bytes. A client that is
/// not done after 1,000 turns has timed out.
pub fn fetch_lynx<W: Wire, O: Write>(
    alloc: Global,
    wire: &mut W,
    server: Endpoint,
    out: &mut O,
) -> Result<u64, RunFault> {
    run_get(alloc, wire, server, Ruleset::Lynx, 1000, out)
}
