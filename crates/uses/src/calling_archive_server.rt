//! A caller of `archive_server`.

use archive_server::{Server, serve_rounds};
use archive_table::{Keeper, LoadFault, NoObserver};
use archive_wire::ReadyWire;
use std::alloc::Global;

/// Makes `rounds` rounds of a server at this port, with the collections of its keeper. Returns how many files were taken.
pub fn load_and_serve<W: ReadyWire, K: Keeper>(
    alloc: Global,
    wire: &mut W,
    keeper: &mut K,
    port: u16,
    rounds: u64,
) -> Result<u64, LoadFault> {
    let mut server = Server::load(alloc, port, keeper)?;
    Ok(serve_rounds(wire, keeper, &mut NoObserver, &mut server, rounds))
}
