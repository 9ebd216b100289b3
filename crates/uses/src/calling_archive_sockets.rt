//! A caller of `archive_sockets`.

use archive_keepers::NoKeeper;
use archive_server::{Server, serve_turns};
use archive_sockets::UdpWire;
use archive_wire::WireFault;
use std::alloc::Global;
use std::net::Net;
use std::random::RandomSource;
use std::time::Clock;

/// Makes `turns` turns of a server at this port, and returns how many files were taken. It keeps nothing.
/// A client's wire is `UdpWire::new`.
pub fn serve<P: Net + Clock + RandomSource + AllocGlobal + Copy>(
    rt: P,
    alloc: Global,
    port: u16,
    turns: u64,
) -> Result<u64, WireFault> {
    let mut wire = UdpWire::listen(rt, port)?;
    let mut server = Server::new(alloc, port);
    Ok(serve_turns(&mut wire, &mut NoKeeper, &mut server, turns))
}
