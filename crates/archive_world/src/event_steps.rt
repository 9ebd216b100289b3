//! Events: each is tested, and then made to happen by the machine.

ghost use Rattle.std.specs.Prelude.{◌≡◌, ◌≢◌, ◌==◌, List, Some, Ok, Err, IfOk, IfErr, OnOk, OnErr, false, true};
ghost use Rattle.archive_client.specs.Client.{is_too_long};
ghost use Rattle.archive_table.specs.Table.{all, table_request, request_verdict, empty_maps};
ghost use Rattle.archive_table.specs.Keeper.{Keeping, TableFails};
ghost use Rattle.archive_model.specs.Restarts.{LoadsAs};
ghost use Rattle.tftp_ends.specs.Ends.{granted};
ghost use Rattle.archive_world.specs.View.{operation_of};
ghost use Rattle.archive_theorem.specs.Reuse.{IsUnused, was_opened};
ghost use Rattle.archive_model.specs.World.{begin, client_times_out, server_times_out, stray, server_endpoint, event_happens, after_request, asked_of, restarts, IsFree, MayHappen};

use crate::datagram::Datagram;
use crate::event_fault::EventFault;
use crate::machine::Machine;
use crate::op::Op;
use crate::op_kind::OpKind;
use crate::server_endpoint::SERVER;
use archive_table::{Keeper, LoadFault};
use std::alloc::Allocator;
use tftp_ends::MAX_FILE;
use tftp_packet::Endpoint;

// Whether an operation has a file that is too long.
fn is_long<A: Allocator>(kind: &OpKind<A>) -> bool
    ensures { result ≡ is_too_long (operation_of kind.now) }
{
    match kind {
        OpKind::Put(file) => file.len() as u64 > MAX_FILE,
        OpKind::Get(_) => false,
    }
}

// Whether an endpoint is on the server's host.
fn is_ours(e: Endpoint) -> bool
    ensures { result ≡ (e.host == server_endpoint.host) }
{
    e.host == SERVER.host
}

/// Begins an operation.
///
/// # Errors
///
/// `Bad` if it is on the server's host, or has a file that is too long; `Reused` if an operation or a stranger has been
/// at its endpoint; out of memory.
pub(crate) fn begin<A: Allocator + Copy>(
    machine: &mut Machine<A>,
    op: &Op<A>,
) -> Result<(), EventFault>
    requires home { machine.old.home ≡ server_endpoint }
    ensures made { OnOk result (machine.new ≡ event_happens (begin op.now.client (operation_of op.now.kind)) all empty_maps machine.old) }
    ensures may { OnOk result (MayHappen (begin op.now.client (operation_of op.now.kind)) machine.old) }
    ensures own { OnOk result (IsUnused op.now.client machine.old) }
    ensures bad { result ≡ Err EventFault.Bad → MayHappen (begin op.now.client (operation_of op.now.kind)) machine.old → ⊥ }
    ensures reused { result ≡ Err EventFault.Reused → MayHappen (begin op.now.client (operation_of op.now.kind)) machine.old }
    ensures used { result ≡ Err EventFault.Reused → IsUnused op.now.client machine.old → ⊥ }
    ensures keeps { result ≢ Err EventFault.NotKept }
    ensures loads { result ≢ Err EventFault.NotLoaded }
{
    if is_ours(op.client) || is_long(&op.kind) {
        return Err(EventFault::Bad);
    }
    if machine.has_begun(op.client) || machine.has_strayed(op.client) {
        return Err(EventFault::Reused);
    }
    match machine.begin(op) {
        Ok(()) => Ok(()),
        Err(_) => Err(EventFault::Memory),
    }
}

/// Adds a stranger's datagram to the network.
///
/// # Errors
///
/// `Bad` if it comes from the server's host or from the endpoint of an operation; out of memory.
pub(crate) fn stray<A: Allocator + Copy>(
    machine: &mut Machine<A>,
    d: &Datagram<A>,
) -> Result<(), EventFault>
    requires home { machine.old.home ≡ server_endpoint }
    ensures made { OnOk result (machine.new ≡ event_happens (stray d.now) all empty_maps machine.old) }
    ensures may { OnOk result (MayHappen (stray d.now) machine.old) }
    ensures bad { result ≡ Err EventFault.Bad → MayHappen (stray d.now) machine.old → ⊥ }
    ensures own { result ≢ Err EventFault.Reused }
    ensures keeps { result ≢ Err EventFault.NotKept }
    ensures loads { result ≢ Err EventFault.NotLoaded }
{
    let from = d.from;
    if is_ours(from) || machine.has_begun(from) {
        return Err(EventFault::Bad);
    }
    match machine.stray(d) {
        Ok(()) => Ok(()),
        Err(_) => Err(EventFault::Memory),
    }
}

/// Handles a time-out of a client.
///
/// # Errors
///
/// `Bad` if no operation has begun at this endpoint; out of memory.
pub(crate) fn client_timeout<A: Allocator + Copy>(
    machine: &mut Machine<A>,
    e: Endpoint,
) -> Result<(), EventFault>
    ensures made { OnOk result (machine.new ≡ event_happens (client_times_out e) all empty_maps machine.old) }
    ensures may { OnOk result (MayHappen (client_times_out e) machine.old) }
    ensures bad { result ≡ Err EventFault.Bad → MayHappen (client_times_out e) machine.old → ⊥ }
    ensures own { result ≢ Err EventFault.Reused }
    ensures keeps { result ≢ Err EventFault.NotKept }
    ensures loads { result ≢ Err EventFault.NotLoaded }
{
    if !machine.has_begun(e) {
        return Err(EventFault::Bad);
    }
    match machine.client_timeout(e) {
        Ok(()) => Ok(()),
        Err(_) => Err(EventFault::Memory),
    }
}

/// Handles a time-out at a port of the server.
///
/// # Errors
///
/// Out of memory.
pub(crate) fn server_timeout<A: Allocator + Copy>(
    machine: &mut Machine<A>,
    port: u16,
) -> Result<(), EventFault>
    requires home { machine.old.home ≡ server_endpoint }
    ensures made { OnOk result (machine.new ≡ event_happens (server_times_out port) all empty_maps machine.old) }
    ensures may { IfErr result (λ fault. fault ≡ EventFault.Memory) }
{
    match machine.server_timeout(port) {
        Ok(()) => Ok(()),
        Err(_) => Err(EventFault::Memory),
    }
}

/// Delivers a datagram to the server's request port, with `spare` as the spare port. Returns whether a transfer was
/// opened there.
///
/// # Errors
///
/// `Bad` if the spare port is the request port or has a transfer; `Reused` if a transfer was opened at it where one was
/// opened before for the same peer; out of memory.
pub(crate) fn request<A: Allocator + Copy>(
    machine: &mut Machine<A>,
    spare: u16,
    d: &Datagram<A>,
) -> Result<bool, EventFault>
    requires home { machine.old.home ≡ server_endpoint }
    requires request { machine.old.server.request ≡ server_endpoint.port }
    ensures made { IfOk result (λ opened. machine.new ≡ after_request d.now.source spare (asked_of d.now.bytes) (table_request (request_verdict opened) spare d.now.source d.now.bytes machine.old.server) machine.old) }
    ensures free { OnOk result (IsFree spare machine.old) }
    ensures own { result ≡ Ok true → was_opened d.now.source spare machine.old.opened ≡ false }
    ensures bad { result ≡ Err EventFault.Bad → IsFree spare machine.old → ⊥ }
    ensures reused { result ≡ Err EventFault.Reused → IsFree spare machine.old }
    ensures used { result ≡ Err EventFault.Reused → was_opened d.now.source spare machine.old.opened ≡ true }
    ensures keeps { result ≢ Err EventFault.NotKept }
    ensures loads { result ≢ Err EventFault.NotLoaded }
    ensures step { IfOk result (λ opened. opened ≡ (table_request (request_verdict opened) spare d.now.source d.now.bytes machine.old.server).step.opened) }
    ensures opens { result ≡ Err EventFault.Reused → (table_request granted spare d.now.source d.now.bytes machine.old.server).step.opened ≡ true }
    ensures opened { result ≡ Err EventFault.Reused →
        machine.new ≡ after_request d.now.source spare (asked_of d.now.bytes) (table_request granted spare d.now.source d.now.bytes machine.old.server) machine.old }
{
    if spare == SERVER.port || machine.is_live(spare) {
        return Err(EventFault::Bad);
    }
    let was = machine.was_opened(d.from, spare);
    match machine.request(spare, d) {
        Ok(opened) => {
            if opened && was {
                return Err(EventFault::Reused);
            }
            Ok(opened)
        }
        Err(_) => Err(EventFault::Memory),
    }
}

/// Restarts the server. If the keeper has a log, and what it kept last is loaded as what the server has, the collections
/// do not change.
///
/// # Errors
///
/// Those of `Table::load`; nothing changes then.
pub(crate) fn restart<K: Keeper, A: Allocator + Copy>(
    machine: &mut Machine<A>,
    keeper: &mut K,
) -> Result<(), LoadFault>
    requires request { machine.old.server.request ≡ server_endpoint.port }
    ensures made { OnOk result ((log : List Keeping) → K.calls keeper.old ≡ Some log → LoadsAs log machine.old.server.maps →
        machine.new ≡ restarts machine.old) }
    ensures home { OnOk result (machine.new.home ≡ machine.old.home) }
    ensures request { OnOk result (machine.new.server.request ≡ machine.old.server.request) }
    ensures calls { K.calls keeper.new ≡ K.calls keeper.old }
    ensures fault { IfErr result (TableFails (K.calls keeper.old)) }
    ensures err { OnErr result (machine.new ≡ machine.old) }
{
    machine.restart(keeper)
}
