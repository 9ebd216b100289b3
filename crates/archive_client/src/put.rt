//! The client that sends a file.

ghost use Rattle.std.specs.Prelude.{◌≡◌, ◌≢◌, ◌<◌, ◌≤◌, length, IfOk, IfErr, false};
ghost use Rattle.tftp_ends.specs.Ends.{granted};
ghost use Rattle.archive_client.specs.Client.{put, client_start, request_out, client_datagram, client_timeout, state_of, is_over, phase_peer, ack_received, IsClient};

use crate::input::Input;
use crate::link::Link;
use crate::phase::Phase;
use crate::state::State;
use crate::too_long::TooLong;
use std::alloc::{Allocator, Global};
use std::marker::Model;
use std::mem;
use tftp_ends::{MAX_FILE, MISSES, SendState, Sender};
use tftp_packet::{Cause, Endpoint, Out, Owned, Refusal, encode_write};
use tws_file::upload_file_name;

/// A client that sends a file. None of its calls allocates.
///
/// It asks the server to take the file, binds to the port that acknowledges the request, and sends the file there block
/// by block. The file counts as sent once the last block is acknowledged.
#[derive(Drop)]
#[derive_where(Debug)]
pub struct Put<A: Allocator + Copy = Global> {
    link: Link,
    phase: Phase<Owned<A>, Sender<Owned<A>>>,
}

impl<A: Allocator + Copy> Model for Put<A> {
    ghost use Rattle.archive_client.specs.Client.{Client, IsClient};

    ghost Value = { Client };

    ghost use Rattle.archive_client.specs.View.{put_of};

    ghost view = { put_of };

    ghost invariant = { λ p. IsClient (put_of p) };
}

impl<A: Allocator + Copy> Put<A> {
    /// Returns a client at `port` of this host that asks the server to take `file`, and its request for the caller to
    /// send: WRQ of RFC 1350 section 5, for the name `upload.tws`. `server` is the server's host and request port.
    ///
    /// # Errors
    ///
    /// Returns `TooLong` with the file in it, exactly if the file has more than `MAX_FILE` bytes.
    pub fn start(port: u16, server: Endpoint, file: Vec<u8, A>) -> Result<(Self, Out), TooLong<A>>
        ensures client { IfOk result (λ r. r.0 ≡ client_start port server (put file.items)) }
        ensures sent { IfOk result (λ r. r.1 ≡ request_out (put file.items) r.0) }
        ensures short { IfOk result (λ _. length file.items ≤ MAX_FILE) }
        ensures fits { IfOk result (λ r. IsClient r.0) }
        ensures back { IfErr result (λ e. e.file ≡ file) }
        ensures long { IfErr result (λ _. MAX_FILE < length file.items) }
    {
        if file.len() as u64 > MAX_FILE {
            return Err(TooLong { file });
        }
        let link = Link { port, server };
        let put = Put {
            link,
            phase: Phase::Asking {
                wanted: Owned::of(file),
                misses: 0,
            },
        };
        Ok((put, link.out(server.port, encode_write(upload_file_name()))))
    }

    // Handles the ACK of the request: binds to its port and sends the first block.
    fn bind(&mut self, port: u16) -> Option<Out>
        requires asking { phase_peer self.old.phase ≡ None }
        requires running { is_over self.old ≡ false }
        ensures client { self.new ≡ (ack_received self.old.phase port 0 self.old).client }
        ensures sent { result ≡ (ack_received self.old.phase port 0 self.old).out }
        ensures fits { IsClient self.new }
    {
        let Phase::Asking { wanted, .. } = mem::replace(
            &mut self.phase,
            Phase::Failed(Cause::TimedOut),
        ) else {
            unreachable!();
        };
        let (end, data) = Sender::start(wanted);
        self.phase = Phase::Bound { peer: port, end };
        Some(self.link.out(port, data))
    }

    // Handles an ACK for this client, received from `port`.
    fn on_ack(&mut self, port: u16, n: u16) -> Option<Out>
        ensures client { self.new ≡ (ack_received self.old.phase port n self.old).client }
        ensures sent { result ≡ (ack_received self.old.phase port n self.old).out }
        ensures fits { IsClient self.new }
    {
        match &mut self.phase {
            Phase::Asking { .. } if n == 0 => self.bind(port),
            Phase::Bound { peer, end } => {
                let data = end.on_ack(n)?;
                Some(self.link.out(*peer, data))
            }
            Phase::Asking { .. } | Phase::Failed(_) => None,
        }
    }

    /// Handles a datagram of these bytes, received from `from` at the client's port. Returns the datagram to send, if
    /// any.
    ///
    /// The first ACK 0 from a port of the server's host binds the client to that port. From then on a packet from
    /// another port of that host is answered with ERROR 5, RFC 1350 section 4, and changes nothing; an ERROR from there
    /// has no effect. An ERROR for the client fails it. A datagram from another host, one that is not a packet, and any
    /// that arrives once the client is `over` has no effect.
    pub fn on_datagram(&mut self, from: Endpoint, bytes: &[u8]) -> Option<Out>
        ensures client { self.new ≡ (client_datagram granted from bytes.now self.old).client }
        ensures sent { result ≡ (client_datagram granted from bytes.now self.old).out }
        ensures fits { IsClient self.new }
    {
        if self.over() {
            return None;
        }
        match self.link.input(self.phase.peer(), from, bytes) {
            Input::Stray => Some(self.link.out(from.port, Refusal::UnknownTransfer.dgram())),
            Input::Refusal(code) => {
                self.phase = Phase::Failed(Cause::Refused(code));
                None
            }
            Input::Ack(n) => self.on_ack(from.port, n),
            Input::Nothing | Input::Data { .. } => None,
        }
    }

    /// Handles a time-out: sends again what was sent last, the request or a DATA. Time-out number `MISSES` in a row
    /// without progress fails the client and sends nothing. Once the client is `over`, nothing changes and nothing is
    /// sent.
    pub fn on_timeout(&mut self) -> Option<Out>
        ensures client { self.new ≡ (client_timeout self.old).client }
        ensures sent { result ≡ (client_timeout self.old).out }
        ensures fits { IsClient self.new }
    {
        match &mut self.phase {
            Phase::Asking { misses, .. } => {
                if *misses + 1 < MISSES {
                    *misses += 1;
                    return Some(
                        self.link
                            .out(self.link.server.port, encode_write(upload_file_name())),
                    );
                }
            }
            Phase::Bound { peer, end } => {
                let data = end.on_timeout();
                if end.state() != SendState::TimedOut {
                    return Some(self.link.out(*peer, data?));
                }
            }
            Phase::Failed(_) => return None,
        }
        self.phase = Phase::Failed(Cause::TimedOut);
        None
    }

    /// The client's state: never `Got`.
    pub fn state(&self) -> State
        ensures is { result ≡ state_of self.now }
        ensures never { result ≢ State.Got }
    {
        match &self.phase {
            Phase::Asking { .. } => State::Running,
            Phase::Bound { end, .. } => match end.state() {
                SendState::Running => State::Running,
                SendState::Finished => State::Sent,
                // A client whose sender gives up is `Failed`.
                SendState::TimedOut => unreachable!(),
            },
            Phase::Failed(why) => State::Failed(*why),
        }
    }

    /// Whether no call has any further effect: the state is `Sent` or `Failed`.
    pub fn over(&self) -> bool
        ensures { result ≡ is_over self.now }
    {
        match &self.phase {
            Phase::Asking { .. } => false,
            Phase::Bound { end, .. } => end.state() != SendState::Running,
            Phase::Failed(_) => true,
        }
    }
}
