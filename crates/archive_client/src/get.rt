//! The client that fetches a collection.

ghost use Rattle.std.specs.Prelude.{◌≡◌, ◌≢◌, ◌≤◌, length, Some, None, false, IsOk, IfOk, ◌↔◌, option_copied};
ghost use Rattle.tftp_packet.specs.Refusal.{refusal_packet};
ghost use Rattle.archive_client.specs.Client.{get, failed, in_phase, out_to, cause_of, client_start, request_out, client_datagram, client_timeout, verdict_after, state_of, is_over, phase_peer, data_received, file_or_client, phase_file, IsClient};
ghost use Rattle.tftp_ends.specs.Ends.{refusal_of};

use crate::input::Input;
use crate::link::Link;
use crate::phase::Phase;
use crate::state::State;
use std::alloc::{Allocator, Global};
use std::marker::Model;
use tftp_ends::{MAX_FILE, MISSES, Received, Receiver, RecvFault, RecvState};
use tftp_packet::{BLOCK_SIZE, Cause, Endpoint, Out, Refusal, encode_read};
use tws_file::Ruleset;

/// A client that fetches the collection of a ruleset. Only `on_datagram` allocates.
///
/// It asks the server for the file, binds to the port that sends the first block, and acknowledges block by block. Once
/// it has the last block it dallies for `DALLY` time-outs (RFC 1350 section 6), in case its last ACK was lost.
#[derive(Drop)]
#[derive_where(Debug)]
pub struct Get<A: Allocator + Copy = Global> {
    #[derive_where(skip(Debug))]
    alloc: A,
    link: Link,
    phase: Phase<Ruleset, Receiver<A>>,
}

impl<A: Allocator + Copy> Model for Get<A> {
    ghost use Rattle.archive_client.specs.Client.{Client, IsClient};

    ghost Value = { Client };

    ghost use Rattle.archive_client.specs.View.{get_of};

    ghost view = { get_of };

    ghost invariant = { λ g. IsClient (get_of g) };
}

// The cause with which a client fails when its receiver refuses a block.
fn cause(fault: RecvFault) -> Cause
    ensures { result ≡ cause_of fault }
{
    match fault {
        RecvFault::Memory => Cause::Memory,
        RecvFault::TooLong => Cause::TooLong,
    }
}

impl<A: Allocator + Copy> Get<A> {
    /// Returns a client at `port` of this host that asks the server for the collection of `ruleset`, and its request
    /// for the caller to send: RRQ of RFC 1350 section 5. `server` is the server's host and request port. Received
    /// blocks are kept in memory of `alloc`.
    pub fn start(alloc: A, port: u16, server: Endpoint, ruleset: Ruleset) -> (Self, Out)
        ensures client { result.0 ≡ client_start port server (get «ruleset») }
        ensures sent { result.1 ≡ request_out (get «ruleset») result.0 }
        ensures fits { IsClient result.0 }
    {
        let link = Link { port, server };
        let get = Get {
            alloc,
            link,
            phase: Phase::Asking {
                wanted: ruleset,
                misses: 0,
            },
        };
        (get, link.out(server.port, encode_read(ruleset.file_name())))
    }

    // Handles a refused block: the client fails, and sends the server an ERROR with the reason.
    fn refuse(&mut self, port: u16, fault: RecvFault) -> Option<Out>
        ensures client { self.new ≡ in_phase (failed (cause_of fault)) self.old }
        ensures sent { result ≡ Some (out_to port (refusal_packet (refusal_of fault)) self.old) }
    {
        self.phase = Phase::Failed(cause(fault));
        Some(self.link.out(port, fault.refusal().dgram()))
    }

    // Handles block 1 while unbound: binds to its port and takes the block.
    fn bind(&mut self, port: u16, body: &[u8]) -> Option<Out>
        requires short { length body.now ≤ BLOCK_SIZE }
        requires asking { phase_peer self.old.phase ≡ None }
        requires running { is_over self.old ≡ false }
        ensures client { self.new ≡ (data_received self.old.phase (verdict_after self.new) port 1 body.now self.old).client }
        ensures sent { result ≡ (data_received self.old.phase (verdict_after self.new) port 1 body.now self.old).out }
        ensures fits { IsClient self.new }
    {
        let mut end = Receiver::new(self.alloc);
        match end.on_data(1, body) {
            Ok(ack) => {
                self.phase = Phase::Bound { peer: port, end };
                Some(self.link.out(port, ack?))
            }
            Err(fault) => self.refuse(port, fault),
        }
    }

    // Handles a DATA for this client, received from `port`.
    fn on_data(&mut self, port: u16, n: u16, body: &[u8]) -> Option<Out>
        requires short { length body.now ≤ BLOCK_SIZE }
        requires running { is_over self.old ≡ false }
        ensures client { self.new ≡ (data_received self.old.phase (verdict_after self.new) port n body.now self.old).client }
        ensures sent { result ≡ (data_received self.old.phase (verdict_after self.new) port n body.now self.old).out }
        ensures fits { IsClient self.new }
    {
        match &mut self.phase {
            Phase::Asking { .. } if n == 1 => self.bind(port, body),
            Phase::Bound { peer, end } => {
                let peer = *peer;
                match end.on_data(n, body) {
                    Ok(ack) => Some(self.link.out(peer, ack?)),
                    Err(fault) => self.refuse(peer, fault),
                }
            }
            Phase::Asking { .. } | Phase::Failed(_) => None,
        }
    }

    /// Handles a datagram of these bytes, received from `from` at the client's port. Returns the datagram to send, if
    /// any.
    ///
    /// The first DATA 1 from a port of the server's host binds the client to that port. From then on a packet from
    /// another port of that host is answered with ERROR 5, RFC 1350 section 4, and changes nothing; an ERROR from there
    /// has no effect. An ERROR for the client fails it, unless the whole file has been received. A block that makes the
    /// file too long, or for which an allocation is refused, fails the client and is answered with ERROR 3, even if it
    /// is the first. A datagram from another host, one that is not a packet, and any that arrives once the client is
    /// `over` has no effect.
    pub fn on_datagram(&mut self, from: Endpoint, bytes: &[u8]) -> Option<Out>
        ensures client { self.new ≡ (client_datagram (verdict_after self.new) from bytes.now self.old).client }
        ensures sent { result ≡ (client_datagram (verdict_after self.new) from bytes.now self.old).out }
        ensures fits { IsClient self.new }
    {
        if self.over() {
            return None;
        }
        match self.link.input(self.phase.peer(), from, bytes) {
            Input::Stray => Some(self.link.out(from.port, Refusal::UnknownTransfer.dgram())),
            Input::Refusal(code) => {
                if self.state() == State::Running {
                    self.phase = Phase::Failed(Cause::Refused(code));
                }
                None
            }
            Input::Data { n, body } => self.on_data(from.port, n, body),
            Input::Nothing | Input::Ack(_) => None,
        }
    }

    /// Handles a time-out: sends again what was sent last, the request or an ACK. Time-out number `MISSES` in a row
    /// without progress fails the client and sends nothing. Once the whole file has been received nothing is sent, and
    /// the client is over at time-out number `DALLY`. Once it is `over`, nothing changes and nothing is sent.
    pub fn on_timeout(&mut self) -> Option<Out>
        ensures client { self.new ≡ (client_timeout self.old).client }
        ensures sent { result ≡ (client_timeout self.old).out }
        ensures fits { IsClient self.new }
    {
        match &mut self.phase {
            Phase::Asking { wanted, misses } => {
                if *misses + 1 < MISSES {
                    *misses += 1;
                    let request = encode_read(wanted.file_name());
                    return Some(self.link.out(self.link.server.port, request));
                }
            }
            Phase::Bound { peer, end } => {
                let ack = end.on_timeout();
                if end.state() != RecvState::TimedOut {
                    return Some(self.link.out(*peer, ack?));
                }
            }
            Phase::Failed(_) => return None,
        }
        self.phase = Phase::Failed(Cause::TimedOut);
        None
    }

    /// The client's state: never `Sent`.
    pub fn state(&self) -> State
        ensures is { result ≡ state_of self.now }
        ensures never { result ≢ State.Sent }
    {
        match &self.phase {
            Phase::Asking { .. } => State::Running,
            Phase::Bound { end, .. } => match end.state() {
                RecvState::Running => State::Running,
                RecvState::Complete | RecvState::Over => State::Got,
                // A client whose receiver gives up is `Failed`.
                RecvState::TimedOut => unreachable!(),
            },
            Phase::Failed(why) => State::Failed(*why),
        }
    }

    /// Whether no call has any further effect: the client has failed, or it has the whole file and no longer dallies.
    pub fn over(&self) -> bool
        ensures { result ≡ is_over self.now }
    {
        match &self.phase {
            Phase::Asking { .. } => false,
            Phase::Bound { end, .. } => match end.state() {
                RecvState::Running | RecvState::Complete => false,
                RecvState::Over => true,
                RecvState::TimedOut => unreachable!(),
            },
            Phase::Failed(_) => true,
        }
    }

    /// The file once it is complete: `Some` exactly if the state is `Got`.
    pub fn file(&self) -> Option<&Received<A>>
        ensures { option_copied result ≡ phase_file self.now.phase }
    {
        match &self.phase {
            Phase::Bound { end, .. } => end.file(),
            Phase::Asking { .. } | Phase::Failed(_) => None,
        }
    }

    /// The complete file. It is moved out of the client, not copied.
    ///
    /// # Errors
    ///
    /// Returns the client unchanged, exactly if its state is not `Got`.
    pub fn into_file(self) -> Result<Received<A>, Self>
        ensures file { result ≡ file_or_client self }
        ensures whole { IsOk result ↔ (state_of self ≡ State.Got) }
        // It is no longer than a file may be.
        ensures size { IfOk result (λ f. length f ≤ MAX_FILE) }
    {
        let Get { alloc, link, phase } = self;
        let Phase::Bound { peer, mut end } = phase else {
            return Err(Get { alloc, link, phase });
        };
        match end.take_file() {
            Some(file) => Ok(file),
            None => Err(Get {
                alloc,
                link,
                phase: Phase::Bound { peer, end },
            }),
        }
    }
}
