//! The table of a server.

ghost use Rattle.std.specs.Prelude.{◌≡◌, ◌≢◌, ◌<◌, ◌≤◌, ◌^◌, [], None, Some, Ok, Err, IfOk, IfErr, true, length, is_some};
ghost use Rattle.archive_table.specs.Table.{empty_table, is_dallying as dallies_at, empty_step, peer_at, refuses, opens_if, request_verdict, table_request, table_timeout, transfer_at, has_slot, read_asked, read_with_slot, write_asked, map_of, port_above, IsEnd, IsTable, table_datagram, grant_of, all, unkept, Merges};
ghost use Rattle.tftp_packet.specs.Packet.{is_octet as octet_mode, read, write};
ghost use Rattle.tftp_packet.specs.Decode.{decode_bytes};
ghost use Rattle.tws_best.specs.Best.{collection_text};
ghost use Rattle.tws_best.specs.Frozen.{frozen_text};
ghost use Rattle.archive_table.specs.Keeper.{StepKeeps, HasLoaded, TableFails};
ghost use Rattle.byte_output.specs.Failures.{Rises};
ghost use Rattle.archive_table.specs.View.{end_of};
ghost use Rattle.archive_table.specs.declared.step_event.StepEvent.TheVariants.{Nothing};
ghost use Rattle.archive_table.specs.Events.{IsDatagramEvent, IsNamedEvent, IsRequestEvent, made, opened_or_refused, reported, timeout_event};

mod datagram;

use crate::end::End;
use crate::incoming::Incoming;
use crate::keep_fault::KeepFault;
use crate::keeper::Keeper;
use crate::limits::LIVE;
use crate::load::load_collection;
use crate::load_fault::LoadFault;
use crate::ports::Ports;
use crate::published::Published;
use crate::step::Step;
use crate::step_event::{FailureCause, StepEvent};
use crate::transfer::Transfer;
use std::alloc::{AllocError, Allocator, Global};
use std::marker::Model;
use std::rc::Rc;
use tftp_ends::{MAX_FILE, RecvState, SendState, Sender};
use tftp_packet::{Dgram, Endpoint, Out, Packet, Refusal, decode, encode_ack, is_octet};
use tws_best::{Collection, Snapshot};
use tws_file::Ruleset;

/// The state of a server: the collection of each ruleset, and the transfers.
#[derive(Drop)]
pub struct Table<A: Allocator + Copy = Global> {
    alloc: A,
    request: u16,
    lynx: Published<A>,
    ms: Published<A>,
    live: Ports<Transfer<A>, A>,
}

impl<A: Allocator + Copy> Model for Table<A> {
    ghost use Rattle.archive_table.specs.Table.{Table as Plain, IsTable};

    ghost Value = { Plain };

    ghost use Rattle.archive_table.specs.View.{table_of};

    ghost view = { table_of };

    ghost invariant = { λ t. IsTable (table_of t) };
}

impl<A: Allocator + Copy> Table<A> {
    /// Returns a table with this request port, empty collections and no transfer. Does not allocate.
    pub fn new(alloc: A, request: u16) -> Self
        ensures server { result ≡ empty_table request }
        ensures fits { IsTable result }
    {
        Table {
            alloc,
            request,
            lynx: Published::of(Collection::new(alloc, Ruleset::Lynx)),
            ms: Published::of(Collection::new(alloc, Ruleset::Ms)),
            live: Ports::new(alloc),
        }
    }

    /// Returns a table with this request port, no transfer, and the collections that a keeper has, empty where it has
    /// none. Keeps nothing.
    ///
    /// # Errors
    ///
    /// Fails at the first of these, for Lynx and then for MS: the keeper fails; what was kept is not a solution file;
    /// it is a file of the other ruleset. It may run out of memory at any point.
    pub fn load<K: Keeper>(alloc: A, request: u16, keeper: &mut K) -> Result<Self, LoadFault>
        ensures loaded { IfOk result (HasLoaded request (K.calls keeper.old)) }
        ensures fault { IfErr result (TableFails (K.calls keeper.old)) }
        ensures calls { K.calls keeper.new ≡ K.calls keeper.old }
        ensures failed { result ≡ Err (LoadFault.Keep KeepFault.Device) → Rises (K.failed keeper.old) (K.failed keeper.new) }
        ensures fits { IfOk result IsTable }
    {
        let lynx = load_collection(alloc, keeper, Ruleset::Lynx)?;
        let ms = load_collection(alloc, keeper, Ruleset::Ms)?;
        Ok(Table {
            alloc,
            request,
            lynx: Published::of(lynx),
            ms: Published::of(ms),
            live: Ports::new(alloc),
        })
    }

    // Refuses a request, from the request port.
    fn refuse(&self, from: Endpoint, why: Refusal) -> Step<A>
        ensures step { result ≡ reported (refuses why from self.now).step (StepEvent.Refused why) }
        ensures fits { IsTable self.now }
    {
        let mut step = Step::nothing();
        step.set_out(self.request, from, Some(why.dgram()));
        step.event = StepEvent::Refused(why);
        step
    }

    // Opens a transfer at the spare port, which is this event, and sends its first datagram from there, or refuses the
    // request if out of memory.
    fn open(
        &mut self,
        spare: u16,
        from: Endpoint,
        end: End<Sender<Rc<Snapshot<A>, A>>, Incoming<A>>,
        first: Dgram,
        event: StepEvent,
    ) -> Step<A>
        requires slot { has_slot self.old ≡ true }
        requires end { IsEnd (end_of end) }
        requires other { spare ≢ self.old.request }
        requires free { transfer_at spare self.old ≡ None }
        ensures server { self.new ≡ (opens_if (request_verdict result.opened) spare from (end_of end) first self.old).server }
        ensures step { made result ≡ (opens_if (request_verdict result.opened) spare from (end_of end) first self.old).step }
        ensures event { result.event ≡ opened_or_refused result.opened event }
        ensures fits { IsTable self.new }
    {
        match self.live.insert(spare, Transfer { peer: from, end }) {
            Ok(_) => Step {
                out: Some(Out {
                    from_port: spare,
                    to: from,
                    dgram: first,
                }),
                opened: true,
                taken: None,
                closed: false,
                event,
            },
            Err(_) => self.refuse(from, Refusal::OutOfMemory),
        }
    }

    // Handles a request to write.
    fn on_write(&mut self, spare: u16, from: Endpoint, mode: &[u8]) -> Step<A>
        requires other { spare ≢ self.old.request }
        requires free { transfer_at spare self.old ≡ None }
        ensures server { self.new ≡ (write_asked (octet_mode mode.now) (request_verdict result.opened) spare from self.old).server }
        ensures step { made result ≡ (write_asked (octet_mode mode.now) (request_verdict result.opened) spare from self.old).step }
        ensures event { IsRequestEvent result.opened (Ok (write [] mode.now)) result.out result.event }
        ensures fits { IsTable self.new }
    {
        if !is_octet(mode) {
            return self.refuse(from, Refusal::OctetOnly);
        }
        if !self.has_slot() {
            return self.refuse(from, Refusal::ServerBusy);
        }
        let incoming = Incoming::new(self.alloc);
        self.open(
            spare,
            from,
            End::Receiving(incoming),
            encode_ack(0),
            StepEvent::OpenedPut,
        )
    }

    // Handles a request to read.
    fn on_read(&mut self, spare: u16, from: Endpoint, name: &[u8], mode: &[u8]) -> Step<A>
        requires other { spare ≢ self.old.request }
        requires free { transfer_at spare self.old ≡ None }
        ensures server { self.new ≡ (read_asked (octet_mode mode.now) (request_verdict result.opened) spare from name.now self.old).server }
        ensures step { made result ≡ (read_asked (octet_mode mode.now) (request_verdict result.opened) spare from name.now self.old).step }
        ensures event { IsRequestEvent result.opened (Ok (read name.now mode.now)) result.out result.event }
        ensures fits { IsTable self.new }
    {
        if !is_octet(mode) {
            return self.refuse(from, Refusal::OctetOnly);
        }
        match Ruleset::from_file_name(name) {
            Some(ruleset) => self.on_named(spare, from, ruleset),
            None => self.refuse(from, Refusal::NoSuchFile),
        }
    }

    // Handles a request to read the collection of a ruleset.
    fn on_named(&mut self, spare: u16, from: Endpoint, ruleset: Ruleset) -> Step<A>
        requires other { spare ≢ self.old.request }
        requires free { transfer_at spare self.old ≡ None }
        ensures server { self.new ≡ (read_with_slot (has_slot self.old) (request_verdict result.opened) spare from (map_of «ruleset» self.old.maps) self.old).server }
        ensures step { made result ≡ (read_with_slot (has_slot self.old) (request_verdict result.opened) spare from (map_of «ruleset» self.old.maps) self.old).step }
        ensures event { IsNamedEvent result.opened «ruleset» result.out result.event }
        ensures fits { IsTable self.new }
    {
        if !self.has_slot() {
            return self.refuse(from, Refusal::ServerBusy);
        }
        if self.collection(ruleset).text_len() > u128::from(MAX_FILE) {
            return self.refuse(from, Refusal::CollectionTooLong);
        }
        let Ok(snapshot) = self.snapshot(ruleset) else {
            return self.refuse(from, Refusal::OutOfMemory);
        };
        let (sender, first) = Sender::start(snapshot);
        self.open(
            spare,
            from,
            End::Sending(sender),
            first,
            StepEvent::OpenedGet(ruleset),
        )
    }

    // The snapshot of a collection's text.
    fn snapshot(&mut self, ruleset: Ruleset) -> Result<Rc<Snapshot<A>, A>, AllocError>
        requires { length (collection_text (map_of «ruleset» self.old.maps)) < 2 ^ 64 }
        ensures same { self.new ≡ self.old }
        ensures text { IfOk result (λ s. frozen_text s.value ≡ collection_text (map_of «ruleset» self.old.maps)) }
    {
        match ruleset {
            Ruleset::Lynx => self.lynx.snapshot(self.alloc),
            Ruleset::Ms => self.ms.snapshot(self.alloc),
        }
    }

    /// Handles a datagram of these bytes, received from `from` at the request port. `spare` is the port for a transfer
    /// that is opened: neither the request port nor a live one. The caller sends the datagram of the step, if it has
    /// one.
    ///
    /// A request to write in mode octet opens a receiver that sends ACK 0 from the spare port. A request to read
    /// `lynx.tws` or `ms.tws` opens a sender of that collection's current text, which begins with DATA 1. A request
    /// that is refused changes nothing and is answered with an ERROR from the request port. The causes, in this order:
    /// another mode, no such file, `LIVE` transfers are live, the text has more than `MAX_FILE` bytes, out of memory.
    /// Any other datagram has no effect.
    #[tactic(auto, using(crate::proofs::SamePort::request_same))]
    pub fn on_request(&mut self, spare: u16, from: Endpoint, bytes: &[u8]) -> Step<A>
        requires other { spare ≢ self.old.request }
        requires free { transfer_at spare self.old ≡ None }
        ensures server { self.new ≡ (table_request (request_verdict result.opened) spare from bytes.now self.old).server }
        ensures step { made result ≡ (table_request (request_verdict result.opened) spare from bytes.now self.old).step }
        ensures event { IsRequestEvent result.opened (decode_bytes bytes.now) result.out result.event }
        ensures request { self.new.request ≡ self.old.request }
        ensures fits { IsTable self.new }
    {
        match decode(bytes) {
            Ok(Packet::Read { name, mode }) => self.on_read(spare, from, name, mode),
            Ok(Packet::Write { mode, .. }) => self.on_write(spare, from, mode),
            Ok(_) | Err(_) => self.ignore(),
        }
    }

    // Whether one more transfer can be opened.
    fn has_slot(&self) -> bool
        ensures { result ≡ has_slot self.now }
    {
        self.live.len() < LIVE
    }

    // Handles any other datagram at the request port. The field is read because only then is the invariant known here.
    fn ignore(&self) -> Step<A>
        ensures step { result ≡ reported empty_step Nothing }
        ensures fits { IsTable self.now }
    {
        let _request = self.request;
        Step::nothing()
    }

    /// Handles a datagram of these bytes, received from `from` at a transfer's port. The caller sends the datagram of
    /// the step, if it has one.
    ///
    /// From a source other than the peer an ERROR has no effect, and any other packet is answered with ERROR 5, RFC
    /// 1350 section 4, and changes nothing. An ERROR from the peer closes the transfer. An ACK goes to a sender, a DATA
    /// to a receiver. When a DATA completes a file, its solutions are merged into the collection of its ruleset, which
    /// is kept if that changed it, before the DATA is acknowledged; then the file is taken. Bytes that are not a
    /// solution file are taken and change nothing. A block that makes the file too long, an allocation that is refused,
    /// or a collection that is not kept closes the transfer with an ERROR, and no collection changes. At a port that is
    /// not live the step is empty.
    #[tactic(auto, using(crate::proofs::SamePort::datagram_same))]
    pub fn on_datagram<K: Keeper>(
        &mut self,
        keeper: &mut K,
        port: u16,
        from: Endpoint,
        bytes: &[u8],
    ) -> Step<A>
        ensures server { self.new ≡ (table_datagram (grant_of result.out) self.new.maps port from bytes.now self.old).server }
        ensures step { made result ≡ (table_datagram (grant_of result.out) self.new.maps port from bytes.now self.old).step }
        ensures event { IsDatagramEvent (transfer_at port self.old) from bytes.now self.old.maps self.new.maps (made result) result.event }
        ensures merges { Merges result.taken self.old.maps self.new.maps }
        ensures request { self.new.request ≡ self.old.request }
        ensures keeps { StepKeeps (grant_of result.out) (table_datagram all self.old.maps port from bytes.now self.old).step.taken self.old.maps self.new.maps (K.calls keeper.old) (K.calls keeper.new) }
        // The keeper is called only for a collection that changes, or that would change if it were kept.
        ensures untouched { grant_of result.out ≢ unkept → self.new.maps ≡ self.old.maps → keeper.new ≡ keeper.old }
        ensures fits { IsTable self.new }
    {
        let mut step = Step::nothing();
        self.handle(keeper, port, from, bytes, &mut step);
        step
    }

    // Handles a time-out at a port. The step is written in place, like that of a datagram.
    #[tactic(auto, using(crate::proofs::Live::remove_set, crate::proofs::Live::set_same))]
    fn time_out(&mut self, port: u16, step: &mut Step<A>)
        requires new { step.old ≡ reported empty_step Nothing }
        ensures server { self.new ≡ (table_timeout port self.old).server }
        ensures step { made step.new ≡ (table_timeout port self.old).step }
        ensures event { step.new.event ≡ timeout_event (transfer_at port self.old) step.new.closed }
        ensures fits { IsTable self.new }
    {
        let Some(transfer) = self.live.get_mut(port) else {
            return;
        };
        let peer = transfer.peer;
        let ended = transfer.broken_by(FailureCause::TimedOut);
        match &mut transfer.end {
            End::Sending(sender) => {
                step.set_out(port, peer, sender.on_timeout());
                match sender.state() {
                    SendState::Running => {}
                    SendState::Finished | SendState::TimedOut => self.close(port, ended, step),
                }
            }
            End::Receiving(incoming) => {
                step.set_out(port, peer, incoming.on_timeout());
                match incoming.state() {
                    RecvState::Running | RecvState::Complete => {}
                    RecvState::TimedOut | RecvState::Over => self.close(port, ended, step),
                }
            }
        }
    }

    /// Handles a time-out at a port: what its transfer sent last is sent again, unless that has received the whole
    /// file; the transfer is closed when its end gives up or has waited long enough for a repeated last block. At a
    /// port that is not live the step is empty.
    #[tactic(auto, using(crate::proofs::SamePort::timeout_same))]
    pub fn on_timeout(&mut self, port: u16) -> Step<A>
        ensures server { self.new ≡ (table_timeout port self.old).server }
        ensures step { made result ≡ (table_timeout port self.old).step }
        ensures event { result.event ≡ timeout_event (transfer_at port self.old) result.closed }
        ensures request { self.new.request ≡ self.old.request }
        ensures fits { IsTable self.new }
    {
        let mut step = Step::nothing();
        self.time_out(port, &mut step);
        step
    }

    /// The collection of a ruleset.
    pub fn collection(&self, ruleset: Ruleset) -> &Collection<A>
        ensures { result.now ≡ map_of «ruleset» self.now.maps }
    {
        match ruleset {
            Ruleset::Lynx => self.lynx.collection(),
            Ruleset::Ms => self.ms.collection(),
        }
    }

    /// The number of transfers, at most `LIVE`.
    pub fn live(&self) -> usize
        ensures count { result ≡ length self.now.live }
        ensures few { result ≤ LIVE }
    {
        self.live.len()
    }

    /// The least live port above `after`.
    pub fn next_port(&self, after: u16) -> Option<u16>
        ensures { result ≡ port_above after self.now }
    {
        self.live.above(after)
    }

    /// The port at which requests arrive.
    pub fn request(&self) -> u16
        ensures { result ≡ self.now.request }
    {
        self.request
    }

    /// The peer of the transfer at a port, if there is one.
    pub fn peer(&self, port: u16) -> Option<Endpoint>
        ensures { result ≡ peer_at port self.now }
    {
        match self.live.get(port) {
            Some(transfer) => Some(transfer.peer),
            None => None,
        }
    }

    /// Whether the transfer at a port dallies: it has received its whole file, and waits only for a repeated last block.
    pub fn is_dallying(&self, port: u16) -> bool
        ensures { result ≡ dallies_at port self.now }
    {
        match self.live.get(port) {
            Some(transfer) => transfer.is_dallying(),
            None => false,
        }
    }

    /// Whether a transfer is at this port.
    pub fn is_live(&self, port: u16) -> bool
        ensures { result ≡ is_some (transfer_at port self.now) }
    {
        self.live.contains(port)
    }
}
