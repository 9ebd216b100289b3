//! A caller of `archive_pace`.

use archive_pace::{PacedWire, SparingWire};
use archive_server::{Server, serve_rounds};
use archive_table::{Keeper, NoObserver};
use archive_wire::ReadyWire;
use std::alloc::Global;
use std::time::Clock;

/// Makes `rounds` rounds of a server over a wire with this clock, at the pace of its keeps. Returns how many files were taken.
pub fn serve_at_a_pace<W: ReadyWire + Drop, C: Clock + Drop, K: Keeper>(
    alloc: Global,
    wire: W,
    clock: C,
    keeper: &mut K,
    server: &mut Server,
    rounds: u64,
) -> u64 {
    let request = server.table().request();
    let mut wire = PacedWire::new(alloc, SparingWire::new(wire), clock, request);
    serve_rounds(&mut wire, keeper, &mut NoObserver, server, rounds)
}
