//! One visit to a port, and one time-out at a port, on the table only.

ghost use Rattle.std.specs.Prelude.{◌≡◌, ◌≢◌, not, is_some, true, None, Some};
ghost use Rattle.tftp_packet.specs.Decode.{decode_bytes};
ghost use Rattle.archive_table.specs.Table.{IsTable, transfer_at};
ghost use Rattle.archive_server.specs.Timers.{ports_of, live_ports, is_quiet, late_ports, restart, HasGivenWay, Tracks};
ghost use Rattle.archive_server.specs.Parts.{IsVisit, IsTimeout, Acts, Walks};
ghost use Rattle.archive_wire.specs.Wire.{SendsOut, datagram};
ghost use Rattle.archive_server.specs.Turn.{transfer_visit, transfer_asks, timeout_visit, request_visit, request_spared, request_change, transfer_change, admits, may_ask, block_in, sent_change as change_sent, is_peer as peer_is, is_usable as usable_at};

use crate::change::Change;
use crate::drop_cause::DropCause;
use crate::mode::Mode;
use crate::places::has_memory;
use crate::putters::Putters;
use crate::server_observer::ServerObserver;
use crate::timers::Timers;
use archive_table::{Keeper, Observer, Step, Table};
use archive_wire::{RECEIVE_SIZE, Wire, send};
use std::alloc::Allocator;
use tftp_packet::{Endpoint, Out, Packet, decode};

/// The result of a visit: whether a file was taken, and what changed for the live ports.
#[derive(Clone, Copy)]
pub(crate) struct Visit {
    pub(crate) taken: bool,
    pub(crate) change: Change,
}

impl Visit {
    // Nothing was received.
    const QUIET: Self = Visit {
        taken: false,
        change: Change::Quiet,
    };

    /// A datagram was lost, or no port was visited.
    pub(crate) const LOST: Self = Visit {
        taken: false,
        change: Change::Nothing,
    };
}

// Closes a port if it is no longer needed. A failure is ignored.
fn close<W: Wire>(wire: &mut W, closes: bool, port: u16)
    ensures { Acts closes port None (W.calls wire.old) (W.calls wire.new) }
{
    if closes {
        let _ = wire.close(port);
    }
}

// Makes the calls after a step.
fn act<W: Wire>(wire: &mut W, closes: bool, port: u16, out: &Option<Out>)
    ensures { Acts closes port out.now (W.calls wire.old) (W.calls wire.new) }
{
    send(wire, out);
    close(wire, closes, port);
}

// The number of the block that a datagram has or acknowledges, or 0.
fn block_in(out: &Out) -> u16
    ensures { result ≡ block_in (decode_bytes out.now.dgram) }
{
    match decode(out.dgram.bytes()) {
        Ok(Packet::Read { .. }) => 0,
        Ok(Packet::Write { .. }) => 0,
        Ok(Packet::Data { block, .. }) => block,
        Ok(Packet::Ack { block }) => block,
        Ok(Packet::Error { .. }) => 0,
        Err(_) => 0,
    }
}

// The change of a step that sent this datagram.
fn sent_change(port: u16, to_peer: bool, out: &Out) -> Change
    ensures { result ≡ change_sent to_peer port (block_in (decode_bytes out.now.dgram)) }
{
    if to_peer {
        Change::Sent(port, block_in(out))
    } else {
        Change::Answered(port)
    }
}

// What a step at a transfer's port changed for the live ports.
fn change_at<A: Allocator>(port: u16, to_peer: bool, step: &Step<A>) -> Change
    ensures { result ≡ transfer_change step.now.closed step.now.out to_peer port }
{
    if step.closed {
        return Change::Closed(port);
    }
    match &step.out {
        None => Change::Nothing,
        Some(out) => sent_change(port, to_peer, out),
    }
}

// Ends a step at a transfer's port: makes the calls after it.
fn end_step<A: Allocator, W: Wire>(wire: &mut W, port: u16, to_peer: bool, step: &Step<A>) -> Visit
    ensures calls { Acts step.now.closed port step.now.out (W.calls wire.old) (W.calls wire.new) }
    ensures taken { result.taken ≡ is_some step.now.taken }
    ensures change { result.change ≡ transfer_change step.now.closed step.now.out to_peer port }
{
    act(wire, step.closed, port, &step.out);
    Visit {
        taken: step.taken.is_some(),
        change: change_at(port, to_peer, step),
    }
}

// Whether an endpoint is the peer of the transfer at a port.
fn is_peer<A: Allocator + Copy>(table: &Table<A>, port: u16, from: Endpoint) -> bool
    ensures { result ≡ peer_is from port table.now }
{
    match table.peer(port) {
        Some(peer) => from.host == peer.host && from.port == peer.port,
        None => false,
    }
}

/// Visits a transfer's port.
pub(crate) fn visit_transfer<A: Allocator + Copy, W: Wire, K: Keeper, O: Observer>(
    table: &mut Table<A>,
    wire: &mut W,
    keeper: &mut K,
    observer: &mut O,
    port: u16,
) -> Visit
    ensures visit { IsVisit (λ a. transfer_visit a port table.old) (λ a. transfer_asks a port table.old) (λ r. true) table.old table.new result.taken result.change (W.calls wire.old) (W.calls wire.new) (K.calls keeper.old) (K.calls keeper.new) }
    ensures fits { IsTable table.old → IsTable table.new }
{
    let mut buffer = [0; RECEIVE_SIZE];
    match wire.receive(port, &mut buffer) {
        Ok(Some((count, from))) => {
            let to_peer = is_peer(table, port, from);
            let step = table.on_datagram(keeper, port, from, &buffer[..count]);
            let visit = end_step(wire, port, to_peer, &step);
            observer.on_step(port, Some(from), &step, table);
            drop(step);
            visit
        }
        Ok(None) => Visit::QUIET,
        Err(_) => Visit::QUIET,
    }
}

/// Handles a time-out at a transfer's port.
pub(crate) fn time_out<A: Allocator + Copy, W: Wire, O: Observer>(
    table: &mut Table<A>,
    wire: &mut W,
    observer: &mut O,
    port: u16,
) -> Change
    ensures timeout { IsTimeout (λ r. timeout_visit r port table.old) table.new result (W.calls wire.old) (W.calls wire.new) }
    ensures fits { IsTable table.new }
{
    let step = table.on_timeout(port);
    let visit = end_step(wire, port, true, &step);
    observer.on_step(port, None, &step, table);
    drop(step);
    visit.change
}

// Ends a request: the spare port is closed again unless a transfer was opened on it.
fn end_request<A: Allocator, W: Wire>(wire: &mut W, spare: u16, step: &Step<A>) -> Visit
    ensures calls { Acts (not step.now.opened) spare step.now.out (W.calls wire.old) (W.calls wire.new) }
    ensures taken { result.taken ≡ is_some step.now.taken }
    ensures change { result.change ≡ request_change step.now.opened spare }
{
    act(wire, !step.opened, spare, &step.out);
    Visit {
        taken: step.taken.is_some(),
        change: if step.opened {
            Change::Opened(spare)
        } else {
            Change::Nothing
        },
    }
}

// Whether a transfer can be opened on a port.
fn is_usable<A: Allocator + Copy>(table: &Table<A>, spare: u16) -> bool
    ensures { result ≡ usable_at spare table.now }
{
    spare != 0 && spare != table.request() && !table.is_live(spare)
}

// Whether bytes are a request that this host may make.
fn may_ask(putters: &Putters, host: u32, bytes: &[u8]) -> bool
    ensures { result ≡ may_ask putters.now host (decode_bytes bytes.now) }
{
    match decode(bytes) {
        Ok(Packet::Read { .. }) => true,
        Ok(Packet::Write { .. }) => putters.allows(host),
        Ok(Packet::Data { .. }) => false,
        Ok(Packet::Ack { .. }) => false,
        Ok(Packet::Error { .. }) => false,
        Err(_) => false,
    }
}

// Whether bytes are a request.
fn is_request(bytes: &[u8]) -> bool
    ensures { result ≡ may_ask Putters.All 0 (decode_bytes bytes.now) }
{
    may_ask(&Putters::All, 0, bytes)
}

// Whether a datagram at the request port is let in.
fn is_admitted<A: Allocator + Copy>(
    table: &Table<A>,
    timers: &Timers,
    mode: Mode,
    from: Endpoint,
    bytes: &[u8],
) -> bool
    ensures { result ≡ admits mode timers.now (datagram from bytes.now) table.now }
{
    match mode {
        Mode::Turn => true,
        Mode::Round { policies, .. } => {
            may_ask(&policies.putters, from.host, bytes)
                && timers.has_room(from.host, policies.per_host, table)
                && has_memory(table)
        }
    }
}

/// Visits the request port.
pub(crate) fn visit_request<A: Allocator + Copy, W: Wire, O: ServerObserver>(
    table: &mut Table<A>,
    wire: &mut W,
    observer: &mut O,
    timers: &Timers,
    mode: Mode,
) -> Visit
    ensures visit { IsVisit (λ a. request_visit a table.old) (λ a. None) (λ r. admits mode timers.now r table.old) table.old table.new result.taken result.change (W.calls wire.old) (W.calls wire.new) None None }
    ensures fits { IsTable table.old → IsTable table.new }
{
    let mut buffer = [0; RECEIVE_SIZE];
    match wire.receive(table.request(), &mut buffer) {
        Ok(Some((count, from))) => {
            if is_admitted(table, timers, mode, from, &buffer[..count]) {
                answer_request(table, wire, observer, from, &buffer[..count])
            } else {
                observe_drop(observer, table, mode, from, &buffer[..count]);
                Visit {
                    taken: false,
                    change: Change::Dropped(from.host),
                }
            }
        }
        Ok(None) => Visit::QUIET,
        Err(_) => Visit::QUIET,
    }
}

// Notifies an observer of a datagram at the request port that was not admitted, if it is a request.
fn observe_drop<A: Allocator + Copy, O: ServerObserver>(
    observer: &mut O,
    table: &Table<A>,
    mode: Mode,
    from: Endpoint,
    bytes: &[u8],
) {
    let Mode::Round { policies, .. } = mode else {
        return;
    };
    if !may_ask(&policies.putters, from.host, bytes) {
        if is_request(bytes) {
            observer.on_dropped(from, DropCause::NotPutter);
        }
    } else if has_memory(table) {
        observer.on_dropped(from, DropCause::ManyTransfers);
    } else {
        observer.on_dropped(from, DropCause::LargeCollection);
    }
}

// Notifies an observer of the step of a request.
fn observe_request<A: Allocator + Copy, O: Observer>(
    table: &Table<A>,
    observer: &mut O,
    spare: u16,
    from: Endpoint,
    step: &Step<A>,
) {
    let port = if step.opened { spare } else { table.request() };
    observer.on_step(port, Some(from), step, table);
}

// Handles a datagram of these bytes, received at the request port.
fn answer_request<A: Allocator + Copy, W: Wire, O: Observer>(
    table: &mut Table<A>,
    wire: &mut W,
    observer: &mut O,
    from: Endpoint,
    bytes: &[u8],
) -> Visit
    ensures visit { IsVisit (λ a. request_spared a.spare a.verdict a.replies from bytes.now table.old) (λ a. None) (λ r. true) table.old table.new result.taken result.change (W.calls wire.old) (W.calls wire.new) None None }
    ensures fits { IsTable table.old → IsTable table.new }
{
    match wire.open() {
        Ok(spare) if is_usable(table, spare) => {
            let step = table.on_request(spare, from, bytes);
            let visit = end_request(wire, spare, &step);
            observe_request(table, observer, spare, from, &step);
            drop(step);
            visit
        }
        Ok(_) => Visit::LOST,
        Err(_) => Visit::LOST,
    }
}

/// Lets each port that is due after a visit with this result, or gives way, time out, in the order of the ports. Its
/// timer restarts, unless its transfer has ended.
pub(crate) fn time_out_late<A: Allocator + Copy, W: Wire, O: Observer>(
    table: &mut Table<A>,
    wire: &mut W,
    observer: &mut O,
    timers: &mut Timers,
    mode: Mode,
    change: Change,
)
    requires fits { IsTable table.old }
    requires tracks { ports_of timers.old ≡ live_ports table.old }
    ensures walks { Walks (late_ports mode change timers.old table.old) (restart mode) table.old table.new timers.old timers.new (W.calls wire.old) (W.calls wire.new) }
    ensures keeps { Tracks table.new timers.new }
    ensures given_way { HasGivenWay mode table.new }
{
    let ports = timers.late(mode, change, table);
    for port in ports.as_slice() {
        let change = time_out(table, wire, observer, *port);
        timers.apply_timeout(mode, change, *port);
    }
}
