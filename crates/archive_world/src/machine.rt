//! The server, the clients and the network, as a program.

ghost use Rattle.std.specs.Prelude.{◌≡◌, false, true, is_some, ◌≢◌, [], OnOk, OnErr, IfOk, IfErr, Some, None, length, slice_get};
ghost use Rattle.archive_client.specs.Client.{is_too_long};
ghost use Rattle.archive_table.specs.Table.{request_verdict, table_request, table_datagram, table_timeout, grant_of, transfer_at, is_same, Grant};
ghost use Rattle.tws_file.specs.Names.{ruleset_named};
ghost use Rattle.archive_table.specs.Events.{made};
ghost use Rattle.archive_table.specs.Keeper.{HasLoaded, TableFails};
ghost use Rattle.archive_world.specs.View.{asked_as, operation_of};
ghost use Rattle.archive_model.specs.World.{World, start, has_begun, begins, server_endpoint, net_with, taken_with, opened_with, got_with, asked_of, asked_named, after_request, after_transfer, strays_in, client_at, client_waits, client_receives};
ghost use Rattle.archive_world.specs.Inside.{ReceivesAtPort, answered_by};
ghost use Rattle.archive_theorem.specs.Reuse.{has_strayed, was_opened, is_opening_at};

mod ending;
mod finishing;
mod starting;

use crate::answered::Answered;
use crate::asked::Asked;
use crate::begun::Begun;
use crate::datagram::Datagram;
use crate::got_file::GotFile;
use crate::op::Op;
use crate::opening::Opening;
use crate::running::Running;
use crate::seat::Seat;
use crate::seats::{find, is_one, receive_at, wait_at};
use crate::server_endpoint::SERVER;
use crate::taken_file::TakenFile;
use archive_table::{Keeper, LoadFault, Step, Table, Taken};
use std::alloc::{AllocError, Allocator, Global};
use std::marker::Model;
use tftp_packet::{Endpoint, Out, Packet, decode};
use tws_file::{Bytes, Ruleset};

/// A world: the real table and clients, and the datagrams that they have sent.
#[derive(Drop)]
pub(crate) struct Machine<A: Allocator + Copy = Global> {
    alloc: A,
    net: Vec<Datagram<A>, A>,
    table: Table<A>,
    // The newest first.
    clients: Vec<Seat<A>, A>,
    begun: Vec<Begun<A>, A>,
    taken: Vec<TakenFile<A>, A>,
    recovered: Vec<TakenFile<A>, A>,
    sent: Vec<Endpoint, A>,
    got: Vec<GotFile<A>, A>,
    opened: Vec<Opening, A>,
    strays: Vec<Datagram<A>, A>,
}

impl<A: Allocator + Copy> Model for Machine<A> {
    ghost use Rattle.archive_model.specs.World.{World};

    ghost Value = { World };

    ghost use Rattle.archive_world.specs.Inside.{world_of};

    ghost view = { world_of };
}

impl<A: Allocator + Copy> Machine<A> {
    /// Returns the start: nothing was sent, and the server has nothing.
    pub(crate) fn new(alloc: A) -> Self
        ensures { result ≡ start }
    {
        Machine {
            alloc,
            net: Vec::new(alloc),
            table: Table::new(alloc, SERVER.port),
            clients: Vec::new(alloc),
            begun: Vec::new(alloc),
            taken: Vec::new(alloc),
            recovered: Vec::new(alloc),
            sent: Vec::new(alloc),
            got: Vec::new(alloc),
            opened: Vec::new(alloc),
            strays: Vec::new(alloc),
        }
    }

    // Adds the datagram that a host sends, if any, to the network.
    fn send(&mut self, host: u32, out: Option<Out>) -> Result<(), AllocError>
        ensures { OnOk result (self.new ≡ record self.old { past = record self.old.past { net = net_with host self.old.net out } }) }
    {
        let Some(out) = out else {
            return Ok(());
        };
        let bytes = Bytes::of(Vec::from_slice(self.alloc, out.dgram.bytes())?);
        let from = Endpoint {
            host,
            port: out.from_port,
        };
        self.net.push(Datagram {
            from,
            to: out.to,
            bytes,
        })?;
        Ok(())
    }

    // Records the file that the server has taken, if any.
    fn take(&mut self, taken: Option<Taken<A>>) -> Result<(), AllocError>
        ensures { OnOk result (self.new ≡ record self.old { past = record self.old.past { taken = taken_with taken self.old.taken } }) }
    {
        let Some(Taken { peer, file }) = taken else {
            return Ok(());
        };
        let file = Bytes::of(file.to_vec(self.alloc)?);
        self.taken.push(TakenFile { peer, file })?;
        Ok(())
    }

    // Records what a step of the server returned, for any input other than a request.
    fn add_step(&mut self, step: Step<A>) -> Result<(), AllocError>
        requires home { self.old.home ≡ server_endpoint }
        ensures { OnOk result (self.new ≡ after_transfer (record { server = self.old.server; step = made step }) self.old) }
    {
        let Step { out, taken, .. } = step;
        self.send(SERVER.host, out)?;
        self.take(taken)
    }

    /// Handles a time-out at a port of the server.
    ///
    /// # Errors
    ///
    /// Out of memory.
    pub(crate) fn server_timeout(&mut self, port: u16) -> Result<(), AllocError>
        requires home { self.old.home ≡ server_endpoint }
        ensures { OnOk result (self.new ≡ after_transfer (table_timeout port self.old.server) self.old) }
    {
        let step = self.table.on_timeout(port);
        self.add_step(step)
    }

    /// Adds a stranger's datagram to the network.
    ///
    /// # Errors
    ///
    /// Out of memory.
    pub(crate) fn stray(&mut self, datagram: &Datagram<A>) -> Result<(), AllocError>
        ensures { OnOk result (self.new ≡ strays_in datagram.now self.old) }
    {
        let one = datagram.copy(self.alloc)?;
        let other = datagram.copy(self.alloc)?;
        self.net.push(one)?;
        self.strays.push(other)?;
        Ok(())
    }

    /// Delivers a datagram to a port of the server other than the request port.
    ///
    /// # Errors
    ///
    /// Out of memory.
    pub(crate) fn transfer<K: Keeper>(
        &mut self,
        keeper: &mut K,
        d: &Datagram<A>,
    ) -> Result<(), AllocError>
        requires home { self.old.home ≡ server_endpoint }
        ensures { (world : World) × ReceivesAtPort d.now (K.calls keeper.old) (K.calls keeper.new) self.old world × OnOk result (self.new ≡ world) }
    {
        let step = self
            .table
            .on_datagram(keeper, d.to.port, d.from, d.bytes.as_slice());
        self.add_step(step)
    }

    /// Restarts the server with what the keeper has.
    ///
    /// # Errors
    ///
    /// Those of `Table::load`; nothing changes then.
    pub(crate) fn restart<K: Keeper>(&mut self, keeper: &mut K) -> Result<(), LoadFault>
        requires request { self.old.server.request ≡ server_endpoint.port }
        ensures loaded { OnOk result (HasLoaded self.old.server.request (K.calls keeper.old) self.new.server) }
        ensures world { OnOk result (self.new ≡ record self.old { server = self.new.server }) }
        ensures calls { K.calls keeper.new ≡ K.calls keeper.old }
        ensures fault { IfErr result (TableFails (K.calls keeper.old)) }
        ensures err { OnErr result (self.new ≡ self.old) }
    {
        self.table = Table::load(self.alloc, SERVER.port, keeper)?;
        Ok(())
    }

    /// Begins an operation: its client sends its request.
    ///
    /// # Errors
    ///
    /// Out of memory.
    pub(crate) fn begin(&mut self, op: &Op<A>) -> Result<(), AllocError>
        requires home { self.old.home ≡ server_endpoint }
        requires short { is_too_long (operation_of op.now.kind) ≡ false }
        ensures { OnOk result (self.new ≡ begins op.now.client (operation_of op.now.kind) self.old) }
    {
        let client = op.client;
        let kind = op.kind.copy(self.alloc)?;
        let (running, out) = Running::start(self.alloc, client.port, &op.kind)?;
        let taken = self.taken.len();
        let Ok(()) = self.clients.insert(0, Seat { client, running }) else {
            return Err(AllocError);
        };
        self.begun.push(Begun {
            client,
            kind,
            taken,
        })?;
        self.send(client.host, Some(out))
    }

    /// Whether an operation has begun at this endpoint.
    pub(crate) fn has_begun(&self, e: Endpoint) -> bool
        ensures { result ≡ has_begun e self.now.begun }
    {
        is_begun(self.begun.as_slice(), e)
    }

    /// Whether a stranger's datagram was sent from this endpoint.
    pub(crate) fn has_strayed(&self, e: Endpoint) -> bool
        ensures { result ≡ has_strayed e self.now.strays }
    {
        is_strayed(self.strays.as_slice(), e)
    }

    /// Whether a transfer is at this port of the server.
    pub(crate) fn is_live(&self, port: u16) -> bool
        ensures { result ≡ is_some (transfer_at port self.now.server) }
    {
        self.table.is_live(port)
    }

    /// A copy of the datagram at this place of the network; `None` if nothing was sent there.
    ///
    /// # Errors
    ///
    /// Out of memory.
    pub(crate) fn datagram(&self, index: usize) -> Result<Option<Datagram<A>>, AllocError>
        ensures { IfOk result (λ d. d ≡ slice_get self.now.net index) }
    {
        match self.net.get(index) {
            Some(d) => Ok(Some(d.copy(self.alloc)?)),
            None => Ok(None),
        }
    }

    // Records the file that a client has fetched, if any.
    fn fetch(&mut self, client: Endpoint, file: Option<Bytes<A>>) -> Result<(), AllocError>
        ensures { OnOk result (self.new ≡ record self.old { past = record self.old.past { got = got_with true client file self.old.got } }) }
    {
        let Some(file) = file else {
            return Ok(());
        };
        self.got.push(GotFile { client, file })?;
        Ok(())
    }

    // Records what a client's step returned.
    fn answer(&mut self, e: Endpoint, answered: Answered<A>) -> Result<(), AllocError>
        ensures { OnOk result (self.new ≡ answered_by e self.old.clients answered.sent answered.file answered.out self.old) }
    {
        let Answered { sent, file, out } = answered;
        if sent {
            self.sent.push(e)?;
        }
        self.fetch(e, file)?;
        self.send(e.host, out)
    }

    /// Handles a time-out of a client. If none is at this endpoint, nothing changes.
    ///
    /// # Errors
    ///
    /// Out of memory.
    pub(crate) fn client_timeout(&mut self, e: Endpoint) -> Result<(), AllocError>
        ensures { OnOk result (self.new ≡ client_waits (client_at e self.old) e self.old) }
    {
        let Some(i) = find(self.clients.as_slice(), e) else {
            return Ok(());
        };
        let answered = wait_at(self.alloc, &mut self.clients, i, e)?;
        self.answer(e, answered)
    }

    /// Delivers a datagram to a client's host. If no client is at its target, nothing changes.
    ///
    /// # Errors
    ///
    /// Out of memory.
    pub(crate) fn client_receive(&mut self, d: &Datagram<A>) -> Result<(), AllocError>
        ensures { OnOk result ((grant : Grant) × (self.new ≡ client_receives (client_at d.now.target self.old) grant d.now self.old)) }
    {
        let Some(i) = find(self.clients.as_slice(), d.to) else {
            return Ok(());
        };
        let answered = receive_at(self.alloc, &mut self.clients, i, d)?;
        self.answer(d.to, answered)
    }

    /// Whether a transfer was opened for this peer at this port.
    pub(crate) fn was_opened(&self, peer: Endpoint, port: u16) -> bool
        ensures { result ≡ was_opened peer port self.now.opened }
    {
        is_opened(self.opened.as_slice(), peer, port)
    }

    /// Delivers a datagram to the request port, with `spare` as the spare port. Returns whether a transfer was opened
    /// there.
    ///
    /// # Errors
    ///
    /// Out of memory.
    pub(crate) fn request(&mut self, spare: u16, d: &Datagram<A>) -> Result<bool, AllocError>
        requires home { self.old.home ≡ server_endpoint }
        requires other { spare ≢ self.old.server.request }
        requires free { transfer_at spare self.old.server ≡ None }
        ensures step { IfOk result (λ opened. opened ≡ (table_request (request_verdict opened) spare d.now.source d.now.bytes self.old.server).step.opened) }
        ensures made { IfOk result (λ opened. self.new ≡ after_request d.now.source spare (asked_of d.now.bytes) (table_request (request_verdict opened) spare d.now.source d.now.bytes self.old.server) self.old) }
    {
        let step = self.table.on_request(spare, d.from, d.bytes.as_slice());
        let Step { out, opened, .. } = step;
        self.open(opened, spare, d)?;
        self.send(SERVER.host, out)?;
        Ok(opened)
    }

    // Records the transfer that was opened at this port for a request, if one was.
    fn open(&mut self, opened: bool, port: u16, d: &Datagram<A>) -> Result<(), AllocError>
        ensures { OnOk result (self.new ≡ record self.old { past = record self.old.past { opened = opened_with opened (record { peer = d.now.source; port = port; asked = asked_of d.now.bytes; taken = length self.old.taken }) self.old.opened } }) }
    {
        if !opened {
            return Ok(());
        }
        self.opened.push(Opening {
            peer: d.from,
            port,
            asked: asked_by(d.bytes.as_slice()),
            taken: self.taken.len(),
        })?;
        Ok(())
    }
}

// What a request asks for.
fn asked_by(bytes: &[u8]) -> Asked
    ensures { asked_as result ≡ asked_of bytes.now }
{
    match decode(bytes) {
        Ok(Packet::Read { name, .. }) => asked_named(name),
        Ok(_) | Err(_) => Asked::Write,
    }
}

// What a request to read this name asks for.
fn asked_named(name: &[u8]) -> Asked
    ensures { asked_as result ≡ asked_named (ruleset_named name.now) }
{
    match Ruleset::from_file_name(name) {
        Some(ruleset) => Asked::Read(ruleset),
        None => Asked::Write,
    }
}

// Whether this is the opening of a transfer for this peer at this port.
fn is_opening(one: &Opening, peer: Endpoint, port: u16) -> bool
    ensures { result ≡ is_opening_at peer port one.now }
{
    peer.host == one.peer.host && peer.port == one.peer.port && port == one.port
}

// Whether the opening of a transfer for this peer at this port is among these.
#[tactic(auto, using(crate::proofs::Searches::opened_here))]
fn is_opened(openings: &[Opening], peer: Endpoint, port: u16) -> bool
    ensures { result ≡ was_opened peer port openings.now }
{
    let mut i = openings.len();
    while i > 0 {
        i -= 1;
        if is_opening(&openings[i], peer, port) {
            return true;
        }
    }
    false
}

// Whether this operation is at an endpoint.
fn is_begun_at<A: Allocator>(one: &Begun<A>, e: Endpoint) -> bool
    ensures { result ≡ is_same e one.now.client }
{
    is_one(e, one.client)
}

// Whether one of these operations has begun at an endpoint.
#[tactic(auto, using(crate::proofs::Searches::begun_here))]
fn is_begun<A: Allocator>(begun: &[Begun<A>], e: Endpoint) -> bool
    ensures { result ≡ has_begun e begun.now }
{
    let mut i = begun.len();
    while i > 0 {
        i -= 1;
        if is_begun_at(&begun[i], e) {
            return true;
        }
    }
    false
}

// Whether a datagram comes from an endpoint.
fn is_from<A: Allocator>(one: &Datagram<A>, e: Endpoint) -> bool
    ensures { result ≡ is_same e one.now.source }
{
    is_one(e, one.from)
}

// Whether one of these datagrams comes from an endpoint.
#[tactic(auto, using(crate::proofs::Searches::strayed_here))]
fn is_strayed<A: Allocator>(strays: &[Datagram<A>], e: Endpoint) -> bool
    ensures { result ≡ has_strayed e strays.now }
{
    let mut i = strays.len();
    while i > 0 {
        i -= 1;
        if is_from(&strays[i], e) {
            return true;
        }
    }
    false
}
