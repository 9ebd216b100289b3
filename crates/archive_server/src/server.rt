//! The server over a wire: turns that count, and rounds that wait for ready ports.

ghost use Rattle.std.specs.Prelude.{◌≡◌, ℕ, Err, IfOk, IfErr, ◌==◌, [], false};
ghost use Rattle.archive_table.specs.Table.{empty_table, has_slot, is_dallying, IsTable, port_above};
ghost use Rattle.archive_table.specs.Keeper.{HasLoaded, TableFails};
ghost use Rattle.byte_output.specs.Failures.{Rises};
ghost use Rattle.archive_server.specs.Timers.{HasGivenWay, Tracks};
ghost use Rattle.archive_server.specs.Parts.{IsVisit, MakesTurnIn};
ghost use Rattle.archive_server.specs.Turn.{MakesTurn, MakesRound, fresh_server, open_policies, next_visit, next_asks, next_admits, next_of, ready_next, noted, noted_or};

use crate::mode::Mode;
use crate::next::Next;
use crate::policies::Policies;
use crate::server_observer::ServerObserver;
use crate::timers::Timers;
use crate::visit::{Visit, time_out_late, visit_request, visit_transfer};
use archive_table::{KeepFault, Keeper, LoadFault, Table};
use archive_wire::{ReadyWire, Wire};
use std::alloc::{Allocator, Global};
use std::marker::Model;

/// A table, the port that was visited last, and a timer for each live port: how many quiet turns are left until it times
/// out, if `turn` is called, or the time at which it does, if `round` is.
#[derive(Drop)]
pub struct Server<A: Allocator + Copy = Global> {
    table: Table<A>,
    last: u16,
    timers: Timers,
    policies: Policies,
}

impl<A: Allocator + Copy> Model for Server<A> {
    ghost use Rattle.archive_server.specs.Timers.{Tracks};
    ghost use Rattle.archive_server.specs.Turn.{Server as Serving};

    ghost Value = { Serving };

    ghost use Rattle.archive_server.specs.View.{server_of};

    ghost view = { server_of };

    ghost invariant = { λ s. Tracks s.table s.timers };
}

// What a turn visits: the port of a transfer, or the request port if `port` is `None`.
fn next_at(port: Option<u16>) -> Next
    ensures { result ≡ next_of port }
{
    match port {
        Some(port) => Next::Transfer(port),
        None => Next::Request,
    }
}

// What a round visits, by the port that is ready, if one is.
fn next_ready<A: Allocator + Copy>(table: &Table<A>, ready: Option<u16>) -> Next
    ensures { result ≡ ready_next ready table.now }
{
    match ready {
        Some(port) if port == table.request() => Next::Request,
        Some(port) => Next::Transfer(port),
        None => Next::Nowhere,
    }
}

fn visit<A: Allocator + Copy, W: Wire, K: Keeper, O: ServerObserver>(
    table: &mut Table<A>,
    wire: &mut W,
    keeper: &mut K,
    observer: &mut O,
    timers: &Timers,
    mode: Mode,
    next: Next,
) -> Visit
    ensures visit { IsVisit (λ a. next_visit next a table.old) (λ a. next_asks next a table.old) (λ r. next_admits mode next timers.now r table.old) table.old table.new result.taken result.change (W.calls wire.old) (W.calls wire.new) (K.calls keeper.old) (K.calls keeper.new) }
    ensures fits { IsTable table.old → IsTable table.new }
{
    match next {
        Next::Request => visit_request(table, wire, observer, timers, mode),
        Next::Transfer(port) => visit_transfer(table, wire, keeper, observer, port),
        Next::Nowhere => Visit::LOST,
    }
}

// A visit, and the time-outs after it. Returns whether a file was taken.
fn turn_in<A: Allocator + Copy, W: Wire, K: Keeper, O: ServerObserver>(
    table: &mut Table<A>,
    wire: &mut W,
    keeper: &mut K,
    observer: &mut O,
    timers: &mut Timers,
    mode: Mode,
    next: Next,
) -> bool
    requires { Tracks table.old timers.old }
    ensures makes { MakesTurnIn mode next table.old table.new timers.old timers.new result (W.calls wire.old) (W.calls wire.new) (K.calls keeper.old) (K.calls keeper.new) }
    ensures tracks { Tracks table.new timers.new }
    ensures given_way { HasGivenWay mode table.new }
{
    let visit = visit(table, wire, keeper, observer, timers, mode, next);
    timers.apply(mode, visit.change);
    time_out_late(table, wire, observer, timers, mode, visit.change);
    visit.taken
}

// The port to note as the last one visited by a turn.
fn noted_port(port: Option<u16>) -> u16
    ensures { result ≡ noted port }
{
    match port {
        Some(port) => port,
        None => 0,
    }
}

// The port to note as the last one visited by a round.
fn noted_ready(last: u16, ready: Option<u16>) -> u16
    ensures { result ≡ noted_or last ready }
{
    match ready {
        Some(port) => port,
        None => last,
    }
}

impl<A: Allocator + Copy> Server<A> {
    /// Returns a server with this request port, empty collections and no transfer, which has visited no port yet. Does
    /// not allocate.
    pub fn new(alloc: A, request: u16) -> Self
        ensures { result ≡ fresh_server open_policies (empty_table request) }
    {
        Self::of(Table::new(alloc, request))
    }

    /// Returns a server like that of `new`, with the collections that a keeper has, empty where it has none. Keeps
    /// nothing.
    ///
    /// # Errors
    ///
    /// Those of `Table::load`.
    pub fn load<K: Keeper>(alloc: A, request: u16, keeper: &mut K) -> Result<Self, LoadFault>
        ensures loaded { IfOk result (λ s. HasLoaded request (K.calls keeper.old) s.table) }
        ensures fresh { IfOk result (λ s. s ≡ fresh_server open_policies s.table) }
        ensures fault { IfErr result (TableFails (K.calls keeper.old)) }
        ensures calls { K.calls keeper.new ≡ K.calls keeper.old }
        ensures failed { result ≡ Err (LoadFault.Keep KeepFault.Device) → Rises (K.failed keeper.old) (K.failed keeper.new) }
    {
        match Table::load(alloc, request, keeper) {
            Ok(table) => Ok(Self::of(table)),
            Err(fault) => Err(fault),
        }
    }

    // A server with this table, before its first turn or round.
    fn of(table: Table<A>) -> Self
        requires idle { table.live ≡ [] }
        requires fits { IsTable table }
        ensures { result ≡ fresh_server open_policies table }
    {
        Server {
            table,
            last: 0,
            timers: Timers::new(),
            policies: Policies::open(),
        }
    }

    /// Sets which requests rounds let in. At first they let in all.
    pub fn set_policies(&mut self, policies: Policies)
        ensures { self.new ≡ record self.old { policies = policies } }
    {
        self.policies = policies;
    }

    /// Makes one turn: visits the least live port above the last one, or the request port if there is none. Returns
    /// whether a file was taken.
    ///
    /// For a datagram at the request port a spare port is opened, and closed again unless a transfer was opened on it.
    /// A turn in which nothing was received is quiet; a transfer times out after `QUIET_TURNS` quiet turns since it was
    /// opened or last sent. A failed call of the wire is a loss or is ignored. The observer is notified of each step, as in a
    /// round.
    pub fn turn<W: Wire, K: Keeper, O: ServerObserver>(
        &mut self,
        wire: &mut W,
        keeper: &mut K,
        observer: &mut O,
    ) -> bool
        ensures { MakesTurn self.old self.new result (W.calls wire.old) (W.calls wire.new) (K.calls keeper.old) (K.calls keeper.new) }
    {
        let port = self.table.next_port(self.last);
        self.last = noted_port(port);
        turn_in(
            &mut self.table,
            wire,
            keeper,
            observer,
            &mut self.timers,
            Mode::Turn,
            next_at(port),
        )
    }

    /// Makes one round: waits for a ready port, visits it as a turn does, and lets transfers time out. Returns whether a
    /// file was taken.
    ///
    /// A datagram at the request port that is not a request, or that the policies do not let in, opens no port. A transfer
    /// times out `TIMEOUT` milliseconds after it was opened or last sent to its peer, once all that had arrived by then was
    /// handed out. When `LIVE` transfers are live, or as many as may have lists of the larger collection, those that dally give
    /// way, or else the slowest one does; if a host asks for more than it may have, its slowest does.
    ///
    /// The observer is notified of each step, time-outs too, after the step's calls of the wire, and of each request that is
    /// dropped. It changes nothing.
    pub fn round<W: ReadyWire, K: Keeper, O: ServerObserver>(
        &mut self,
        wire: &mut W,
        keeper: &mut K,
        observer: &mut O,
    ) -> bool
        ensures made { MakesRound self.old self.new result (W.calls wire.old) (W.calls wire.new) (K.calls keeper.old) (K.calls keeper.new) }
        // So each transfer that dallies has given its place up before the next request is judged.
        ensures given_way { has_slot self.new.table ≡ false → (port : ℕ) → is_dallying port self.new.table ≡ false }
    {
        let ready = wire.wait(self.last, self.timers.earliest());
        self.last = noted_ready(self.last, ready.port);
        let next = next_ready(&self.table, ready.port);
        turn_in(
            &mut self.table,
            wire,
            keeper,
            observer,
            &mut self.timers,
            Mode::Round {
                now: ready.time,
                settled: ready.settled,
                policies: self.policies,
            },
            next,
        )
    }

    /// The table.
    pub fn table(&self) -> &Table<A>
        ensures { result.now ≡ self.now.table }
    {
        &self.table
    }
}
