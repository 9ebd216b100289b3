//! Makes a list of events happen, one by one.

ghost use Rattle.std.specs.Prelude.{◌≡◌, ℕ, Err, IfOk};
ghost use Rattle.archive_table.specs.declared.load_fault.LoadFault.{LoadFault};
ghost use Rattle.archive_table.specs.Keeper.{TableFails};
ghost use Rattle.archive_model.specs.World.{server_endpoint};
ghost use Rattle.archive_world.specs.View.{events_of};
ghost use Rattle.archive_world.specs.Replays.{IsReady, HasLog, FromLoad, HasRun, HasRunFrom, IsBadAt, IsReusedAt, IsNotKeptAt, IsNotLoadedAt, HasStopped, FailsBy, nothing};
ghost use Rattle.archive_world.specs.Exits.{world_fault_of, HappenedOr, ReplayEnds, FromWorld};

use crate::event::Event;
use crate::event_fault::EventFault;
use crate::events::happen;
use crate::machine::Machine;
use crate::outcome::Outcome;
use crate::replay_fault::ReplayFault;
use crate::world_fault::WorldFault;
use archive_table::Keeper;
use std::alloc::Allocator;

// Why there is no run, given the fault of the event at this place.
fn fault_at(fault: EventFault, index: usize) -> WorldFault
    ensures { result ≡ world_fault_of fault index }
{
    match fault {
        EventFault::Bad => WorldFault::BadEvent(index),
        EventFault::Reused => WorldFault::PortReused(index),
        EventFault::NotKept => WorldFault::NotKept(index),
        EventFault::NotLoaded => WorldFault::NotLoaded(index),
        EventFault::Memory => WorldFault::Memory,
    }
}

// Makes these events happen in a machine, in order.
fn happen_all<K: Keeper, A: Allocator + Copy>(
    machine: &mut Machine<A>,
    keeper: &mut K,
    events: &[Event<A>],
) -> Result<(), WorldFault>
    requires home { machine.old.home ≡ server_endpoint }
    requires request { machine.old.server.request ≡ server_endpoint.port }
    ensures { FromWorld machine.old (K.calls keeper.old) (events_of events.now)
        (λ o. HappenedOr o result (events_of events.now) (K.calls keeper.old) (K.calls keeper.new) machine.new) }
{
    let mut i = 0;
    while i < events.len() {
        match happen(machine, keeper, &events[i]) {
            Ok(()) => {}
            Err(fault) => return Err(fault_at(fault, i)),
        }
        i += 1;
    }
    Ok(())
}

// Makes these events happen in a machine, in order, and returns the outcome.
fn run<K: Keeper, A: Allocator + Copy>(
    mut machine: Machine<A>,
    keeper: &mut K,
    events: &[Event<A>],
) -> Result<Outcome<A>, WorldFault>
    requires home { machine.home ≡ server_endpoint }
    requires request { machine.server.request ≡ server_endpoint.port }
    ensures { FromWorld machine (K.calls keeper.old) (events_of events.now)
        (λ o. ReplayEnds o result (events_of events.now) (K.calls keeper.old) (K.calls keeper.new)) }
{
    match happen_all(&mut machine, keeper, events) {
        Ok(()) => {}
        Err(fault) => {
            drop(machine);
            return Err(fault);
        }
    }
    match machine.outcome() {
        Ok(outcome) => Ok(outcome),
        Err(_) => Err(WorldFault::Memory),
    }
}

/// Returns the outcome of these events, from a start at which nothing was sent and the server has nothing. The server
/// keeps its collections with the keeper, and loads them from it at a restart.
///
/// # Errors
///
/// The first event that is not allowed, that reuses a port, of which the keeper has not kept the collection that is to be
/// found, or at which the server cannot load its collections; out of memory. The keeper then has what the earlier steps
/// have kept.
pub fn replay<K: Keeper, A: Allocator + Copy>(
    alloc: A,
    keeper: &mut K,
    events: &[Event<A>],
) -> Result<Outcome<A>, WorldFault>
    ensures ran { IfOk result (λ outcome. IsReady (K.calls keeper.old) (events_of events.now) →
        HasRun (events_of events.now) (K.calls keeper.old) (K.calls keeper.new) outcome) }
    ensures bad { (i : ℕ) → result ≡ Err (WorldFault.BadEvent i) → IsReady (K.calls keeper.old) (events_of events.now) →
        IsBadAt nothing (events_of events.now) (K.calls keeper.old) (K.calls keeper.new) i }
    ensures reused { (i : ℕ) → result ≡ Err (WorldFault.PortReused i) → IsReady (K.calls keeper.old) (events_of events.now) →
        IsReusedAt nothing (events_of events.now) (K.calls keeper.old) (K.calls keeper.new) i }
    ensures not_kept { (i : ℕ) → result ≡ Err (WorldFault.NotKept i) → IsReady (K.calls keeper.old) (events_of events.now) →
        IsNotKeptAt nothing (events_of events.now) (K.calls keeper.old) (K.calls keeper.new) i }
    ensures not_loaded { (i : ℕ) → result ≡ Err (WorldFault.NotLoaded i) → IsReady (K.calls keeper.old) (events_of events.now) →
        IsNotLoadedAt nothing (events_of events.now) (K.calls keeper.old) (K.calls keeper.new) i }
    ensures memory { result ≡ Err WorldFault.Memory → IsReady (K.calls keeper.old) (events_of events.now) →
        HasStopped nothing (events_of events.now) (K.calls keeper.old) (K.calls keeper.new) }
{
    let machine = Machine::new(alloc);
    run(machine, keeper, events)
}

/// As `replay`, but the server loads its collections from the keeper at the start, too. Their texts are the first files
/// taken.
///
/// # Errors
///
/// `NotStarted` if the server cannot load what the keeper has at first; the keeper is as it was then. `Ended` with the fault
/// of `replay`.
pub fn replay_from<K: Keeper, A: Allocator + Copy>(
    alloc: A,
    keeper: &mut K,
    events: &[Event<A>],
) -> Result<Outcome<A>, ReplayFault>
    ensures ran { IfOk result (λ outcome. HasLog (K.calls keeper.old) (events_of events.now) → FromLoad (K.calls keeper.old)
        (λ o. HasRunFrom o (events_of events.now) (K.calls keeper.old) (K.calls keeper.new) outcome)) }
    ensures not_started { (fault : LoadFault) → result ≡ Err (ReplayFault.NotStarted fault) →
        TableFails (K.calls keeper.old) fault × (K.calls keeper.new ≡ K.calls keeper.old) }
    ensures ended { (fault : WorldFault) → result ≡ Err (ReplayFault.Ended fault) → HasLog (K.calls keeper.old) (events_of events.now) →
        FromLoad (K.calls keeper.old) (λ o. FailsBy o fault (events_of events.now) (K.calls keeper.old) (K.calls keeper.new)) }
{
    let machine = match Machine::load(alloc, keeper) {
        Ok(machine) => machine,
        Err(fault) => return Err(ReplayFault::NotStarted(fault)),
    };
    match run(machine, keeper, events) {
        Ok(outcome) => Ok(outcome),
        Err(fault) => Err(ReplayFault::Ended(fault)),
    }
}
