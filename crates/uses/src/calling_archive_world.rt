//! A caller of `archive_world`.

use archive_memory::MemoryKeeper;
use archive_world::{Event, ReplayFault, TakenFile, WorldFault, replay, replay_from};
use std::alloc::Global;
use tftp_packet::Endpoint;

/// The endpoints whose files count as sent after these events, on the real table and clients, from a server with empty
/// collections.
pub fn sent_after(alloc: Global, events: &[Event]) -> Result<Vec<Endpoint>, WorldFault> {
    let outcome = replay(alloc, &mut MemoryKeeper::new(alloc), events)?;
    Ok(outcome.sent)
}

/// The files that a server has taken after these events, from what this keeper has: its texts are the first.
pub fn taken_after(
    alloc: Global,
    keeper: &mut MemoryKeeper,
    events: &[Event],
) -> Result<Vec<TakenFile>, ReplayFault> {
    let outcome = replay_from(alloc, keeper, events)?;
    Ok(outcome.taken)
}
