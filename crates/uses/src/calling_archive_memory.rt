//! A caller of `archive_memory`.

ghost use Rattle.std.specs.Prelude.{◌≤◌, length};
ghost use Rattle.archive_wire.specs.declared.wire.TheConstants.{RECEIVE_SIZE};

use archive_keepers::NoKeeper;
use archive_memory::MemoryWire;
use archive_server::{Server, serve_turns};
use std::alloc::{AllocError, Global};
use tftp_packet::Endpoint;

/// A turn of a new server to whose request port these bytes have come. The wire that is returned has the log of its
/// calls.
pub fn one_turn(alloc: Global, from: Endpoint, bytes: &[u8]) -> Result<MemoryWire, AllocError>
    requires { length bytes.now ≤ RECEIVE_SIZE }
{
    let mut wire = MemoryWire::new(alloc, Vec::from_slice(alloc, &[4000])?);
    wire.arrive(alloc, 6969, from, bytes)?;
    let mut server = Server::new(alloc, 6969);
    serve_turns(&mut wire, &mut NoKeeper, &mut server, 1);
    Ok(wire)
}
