//! Makes an event happen, by its kind.

ghost use Rattle.std.specs.Prelude.{◌≡◌, ◌≢◌, List, Option, Some, ℕ, slice_get};
ghost use Rattle.archive_table.specs.Keeper.{Keeping};
ghost use Rattle.archive_world.specs.View.{event_of};
ghost use Rattle.archive_model.specs.World.{deliver, unknown_keep, server_endpoint};
ghost use Rattle.archive_world.specs.Ending.{EndsBy};
ghost use Rattle.archive_world.specs.Exits.{Comes};

use crate::datagram::Datagram;
use crate::event::Event;
use crate::event_fault::EventFault;
use crate::event_steps::{begin, client_timeout, request, restart, server_timeout, stray};
use crate::machine::Machine;
use crate::server_endpoint::SERVER;
use archive_table::Keeper;
use std::alloc::Allocator;

// Delivers a datagram to a client's host.
fn receive<A: Allocator + Copy>(machine: &mut Machine<A>, d: &Datagram<A>) -> Result<(), EventFault>
    requires home { machine.old.home ≡ server_endpoint }
    requires away { d.now.target.host ≢ server_endpoint.host }
    ensures { (reported : Option (List Keeping)) (index spare : ℕ) → slice_get machine.old.net index ≡ Some d.now →
        Comes result (deliver index spare) reported reported machine.old machine.new }
{
    match machine.client_receive(d) {
        Ok(()) => Ok(()),
        Err(_) => Err(EventFault::Memory),
    }
}

// Delivers a datagram to the request port.
fn ask<A: Allocator + Copy>(
    machine: &mut Machine<A>,
    spare: u16,
    d: &Datagram<A>,
) -> Result<(), EventFault>
    requires home { machine.old.home ≡ server_endpoint }
    requires request { machine.old.server.request ≡ server_endpoint.port }
    requires ours { d.now.target.host ≡ server_endpoint.host }
    requires at { d.now.target.port ≡ server_endpoint.port }
    ensures { (reported : Option (List Keeping)) (index : ℕ) → slice_get machine.old.net index ≡ Some d.now →
        Comes result (deliver index spare) reported reported machine.old machine.new }
{
    match request(machine, spare, d) {
        Ok(_) => Ok(()),
        Err(fault) => Err(fault),
    }
}

// Delivers a datagram to another port of the server.
fn transfer<K: Keeper, A: Allocator + Copy>(
    machine: &mut Machine<A>,
    keeper: &mut K,
    d: &Datagram<A>,
) -> Result<(), EventFault>
    requires home { machine.old.home ≡ server_endpoint }
    requires request { machine.old.server.request ≡ server_endpoint.port }
    requires ours { d.now.target.host ≡ server_endpoint.host }
    requires other { d.now.target.port ≢ server_endpoint.port }
    ensures { (index spare : ℕ) → slice_get machine.old.net index ≡ Some d.now →
        Comes result (deliver index spare) (K.calls keeper.old) (K.calls keeper.new) machine.old machine.new }
{
    match machine.transfer(keeper, d) {
        Ok(()) => Ok(()),
        Err(_) => Err(EventFault::Memory),
    }
}

// Delivers a datagram to its target.
fn arrive<K: Keeper, A: Allocator + Copy>(
    machine: &mut Machine<A>,
    keeper: &mut K,
    spare: u16,
    d: &Datagram<A>,
) -> Result<(), EventFault>
    requires home { machine.old.home ≡ server_endpoint }
    requires request { machine.old.server.request ≡ server_endpoint.port }
    ensures { (index : ℕ) → slice_get machine.old.net index ≡ Some d.now →
        Comes result (deliver index spare) (K.calls keeper.old) (K.calls keeper.new) machine.old machine.new }
{
    let to = d.to;
    if to.host != SERVER.host {
        return receive(machine, d);
    }
    if to.port == SERVER.port {
        return ask(machine, spare, d);
    }
    transfer(machine, keeper, d)
}

// Delivers the datagram at this place of the network to its target.
fn deliver<K: Keeper, A: Allocator + Copy>(
    machine: &mut Machine<A>,
    keeper: &mut K,
    index: usize,
    spare: u16,
) -> Result<(), EventFault>
    requires home { machine.old.home ≡ server_endpoint }
    requires request { machine.old.server.request ≡ server_endpoint.port }
    ensures { Comes result (deliver index spare) (K.calls keeper.old) (K.calls keeper.new) machine.old machine.new }
{
    let d = match machine.datagram(index) {
        Ok(Some(d)) => d,
        Ok(None) => return Err(EventFault::Bad),
        Err(_) => return Err(EventFault::Memory),
    };
    arrive(machine, keeper, spare, &d)
}

// Ends a keep with an unknown outcome, which the next start finds, or does not.
fn end<K: Keeper, A: Allocator + Copy>(
    machine: &mut Machine<A>,
    keeper: &mut K,
    found: bool,
    d: &Datagram<A>,
) -> Result<(), EventFault>
    requires home { machine.old.home ≡ server_endpoint }
    ensures { EndsBy result found d.now (K.calls keeper.old) (K.calls keeper.new) machine.old machine.new }
{
    if found {
        return machine.end_found(keeper, d);
    }
    machine.end_lost(d)
}

// The same, and the server starts again.
fn end_there<K: Keeper, A: Allocator + Copy>(
    machine: &mut Machine<A>,
    keeper: &mut K,
    found: bool,
    d: &Datagram<A>,
) -> Result<(), EventFault>
    requires home { machine.old.home ≡ server_endpoint }
    requires request { machine.old.server.request ≡ server_endpoint.port }
    requires ours { d.now.target.host ≡ server_endpoint.host }
    requires other { d.now.target.port ≢ server_endpoint.port }
    ensures { (index : ℕ) → slice_get machine.old.net index ≡ Some d.now →
        Comes result (unknown_keep index found) (K.calls keeper.old) (K.calls keeper.new) machine.old machine.new }
{
    match end(machine, keeper, found, d) {
        Ok(()) => {}
        Err(fault) => return Err(fault),
    }
    match restart(machine, keeper) {
        Ok(()) => Ok(()),
        Err(_) => Err(EventFault::NotLoaded),
    }
}

// Ends the keep that a datagram asks for, if it is at a transfer's port.
fn end_at<K: Keeper, A: Allocator + Copy>(
    machine: &mut Machine<A>,
    keeper: &mut K,
    found: bool,
    d: &Datagram<A>,
) -> Result<(), EventFault>
    requires home { machine.old.home ≡ server_endpoint }
    requires request { machine.old.server.request ≡ server_endpoint.port }
    ensures { (index : ℕ) → slice_get machine.old.net index ≡ Some d.now →
        Comes result (unknown_keep index found) (K.calls keeper.old) (K.calls keeper.new) machine.old machine.new }
{
    let to = d.to;
    if to.host != SERVER.host {
        return Err(EventFault::Bad);
    }
    if to.port == SERVER.port {
        return Err(EventFault::Bad);
    }
    end_there(machine, keeper, found, d)
}

// Ends the keep that the datagram at this place of the network asks for.
fn unknown_keep<K: Keeper, A: Allocator + Copy>(
    machine: &mut Machine<A>,
    keeper: &mut K,
    index: usize,
    found: bool,
) -> Result<(), EventFault>
    requires home { machine.old.home ≡ server_endpoint }
    requires request { machine.old.server.request ≡ server_endpoint.port }
    ensures { Comes result (unknown_keep index found) (K.calls keeper.old) (K.calls keeper.new) machine.old machine.new }
{
    let d = match machine.datagram(index) {
        Ok(Some(d)) => d,
        Ok(None) => return Err(EventFault::Bad),
        Err(_) => return Err(EventFault::Memory),
    };
    end_at(machine, keeper, found, &d)
}

/// Makes an event happen, if it is allowed.
///
/// # Errors
///
/// `Bad` if it is not allowed, or a keep of a file that changes no collection; `Reused` if it would reuse a port; `NotKept`
/// if the keeper has not kept what the next start is to find; `NotLoaded` if the server cannot load its collections; out
/// of memory.
pub(crate) fn happen<K: Keeper, A: Allocator + Copy>(
    machine: &mut Machine<A>,
    keeper: &mut K,
    event: &Event<A>,
) -> Result<(), EventFault>
    requires home { machine.old.home ≡ server_endpoint }
    requires request { machine.old.server.request ≡ server_endpoint.port }
    ensures { Comes result (event_of event.now) (K.calls keeper.old) (K.calls keeper.new) machine.old machine.new }
{
    match event {
        Event::Begin(op) => begin(machine, op),
        Event::Deliver { index, spare } => deliver(machine, keeper, *index, *spare),
        Event::ClientTimeout { client } => client_timeout(machine, *client),
        Event::ServerTimeout { port } => server_timeout(machine, *port),
        Event::Stray(d) => stray(machine, d),
        Event::Restart => match restart(machine, keeper) {
            Ok(()) => Ok(()),
            Err(_) => Err(EventFault::NotLoaded),
        },
        Event::UnknownKeep { index, found } => unknown_keep(machine, keeper, *index, *found),
    }
}
