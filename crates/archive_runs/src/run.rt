//! A put or a get that runs over a wire.

ghost use Rattle.std.specs.Prelude.{◌≡◌, true, false};
ghost use Rattle.tftp_packet.specs.Decode.{decode_bytes};
ghost use Rattle.archive_client.specs.Client.{get as getting, put as putting};
ghost use Rattle.archive_runs.specs.Rounds.{DalliesFor, IsRunRound, MakesDally, MakesRunRound, MakesRunRounds, ReceivesAt, SetsTimer, TakesAt, asking, has_ended, is_error, is_past, is_ready, left_at, round_timeout};
ghost use Rattle.archive_runs.specs.Run.{Begins, MakesRan, MakesRunStep, MakesRunSteps, MakesRunTurn, MakesRunTurns, Takes, run_datagram, run_quiet, left_after};

use crate::limits::DALLY_PAUSE;
use crate::pace::{Pace, moment_after};
use crate::run_client::RunClient;
use crate::run_fault::RunFault;
use archive_client::{Cause, Get, Put};
use archive_wire::{QUIET_TURNS, RECEIVE_SIZE, ReadyWire, TIMEOUT, Wire, send};
use std::alloc::{Allocator, Global};
use std::marker::Model;
use tftp_packet::{Endpoint, Out, Packet, decode};
use tws_file::Ruleset;

/// A client that runs over a wire: the client, its port there, and when it times out: how many quiet turns are left, if
/// `turn` is called, or the moment, if `round` is.
#[derive(Debug, Drop)]
pub struct Run<C: RunClient> {
    client: C,
    port: u16,
    left: u64,
}

/// A put that runs over a wire.
pub type PutRun<A = Global> = Run<Put<A>>;

/// A get that runs over a wire.
pub type GetRun<A = Global> = Run<Get<A>>;

impl<C: RunClient> Model for Run<C> {
    ghost use Rattle.archive_runs.specs.Run.{Run as Running};

    ghost Value = { Running };

    ghost view = { λ r. record { client = C.client r.client; port = r.port; left = r.left } };
}

// How many quiet turns are left after a step: all of them if it sends.
fn left_now(out: &Option<Out>, left: u64) -> u64
    ensures { result ≡ left_after out.now left }
{
    match out {
        Some(_) => QUIET_TURNS,
        None => left,
    }
}

// Whether a datagram that is sent is an ERROR.
fn is_error(out: &Out) -> bool
    ensures { result ≡ is_error (decode_bytes out.now.dgram) }
{
    match decode(out.dgram.bytes()) {
        Ok(Packet::Read { .. }) => false,
        Ok(Packet::Write { .. }) => false,
        Ok(Packet::Data { .. }) => false,
        Ok(Packet::Ack { .. }) => false,
        Ok(Packet::Error { .. }) => true,
        Err(_) => false,
    }
}

// The moment at which a client times out after a step at `time`. An ERROR that it sends restarts nothing.
fn due_now(pace: Pace, time: u64, out: &Option<Out>, left: u64) -> u64
    ensures { result ≡ left_at pace time out.now left }
{
    match out {
        Some(out) => {
            if is_error(out) {
                left
            } else {
                moment_after(pace.pause, time)
            }
        }
        None => left,
    }
}

// Whether all that had arrived by this moment was handed out.
fn is_past(end: u64, settled: Option<u64>) -> bool
    ensures { result ≡ is_past end settled }
{
    match settled {
        Some(settled) => end <= settled,
        None => false,
    }
}

// Whether this port is the one that is ready.
fn is_ready(port: u16, ready: Option<u16>) -> bool
    ensures { result ≡ is_ready port ready }
{
    match ready {
        Some(ready) => ready == port,
        None => false,
    }
}

impl<C: RunClient> Run<C> {
    // Handles a datagram.
    fn take<W: Wire>(&mut self, wire: &mut W, from: Endpoint, bytes: &[u8])
        ensures { Takes from bytes.now self.old self.new (W.calls wire.old) (W.calls wire.new) }
    {
        let out = self.client.take_datagram(from, bytes);
        self.left = left_now(&out, self.left);
        send(wire, &out);
    }

    // Handles a quiet turn.
    fn wait<W: Wire>(&mut self, wire: &mut W)
        ensures { MakesRan (λ ok. run_quiet self.old ok) self.new (W.calls wire.old) (W.calls wire.new) }
    {
        if self.left <= 1 {
            self.left = QUIET_TURNS;
            let out = self.client.take_timeout();
            send(wire, &out);
        } else {
            self.left -= 1;
        }
    }

    /// Makes one turn: receives, and sends what the client returns. The client times out after `QUIET_TURNS` quiet
    /// turns since it began or last sent.
    pub fn turn<W: Wire>(&mut self, wire: &mut W)
        ensures { MakesRunTurn self.old self.new (W.calls wire.old) (W.calls wire.new) }
    {
        let mut buffer = [0; RECEIVE_SIZE];
        match wire.receive(self.port, &mut buffer) {
            Ok(Some((count, from))) => self.take(wire, from, &buffer[..count]),
            Ok(None) => self.wait(wire),
            Err(_) => self.wait(wire),
        }
    }

    /// The client.
    pub fn client(&self) -> &C
        ensures { C.client result.now ≡ self.now.client }
    {
        &self.client
    }

    /// Makes turns until the client is over, at most `turns`.
    pub(crate) fn turns<W: Wire>(&mut self, wire: &mut W, turns: u64)
        ensures { MakesRunTurns turns self.old self.new (W.calls wire.old) (W.calls wire.new) }
    {
        for _turn in 0..turns {
            if self.client().is_over() {
                return;
            }
            self.turn(wire);
        }
    }

    // Looks at the clock, and has the client time out `pause` milliseconds later. Returns the time.
    fn set_timer<W: ReadyWire>(&mut self, wire: &mut W, pause: u64) -> u64
        ensures { SetsTimer pause result self.old self.new (W.calls wire.old) (W.calls wire.new) }
    {
        let time = wire.wait(0, Some(0)).time;
        self.left = moment_after(pause, time);
        time
    }

    // Handles a datagram in a round.
    fn take_at<W: Wire>(
        &mut self,
        wire: &mut W,
        pace: Pace,
        time: u64,
        from: Endpoint,
        bytes: &[u8],
    )
        ensures { TakesAt pace time from bytes.now self.old self.new (W.calls wire.old) (W.calls wire.new) }
    {
        let out = self.client.take_datagram(from, bytes);
        self.left = due_now(pace, time, &out, self.left);
        send(wire, &out);
    }

    // Receives at the client's port, and handles what has come.
    fn receive_at<W: Wire>(&mut self, wire: &mut W, pace: Pace, time: u64)
        ensures { ReceivesAt pace time self.old self.new (W.calls wire.old) (W.calls wire.new) }
    {
        let mut buffer = [0; RECEIVE_SIZE];
        match wire.receive(self.port, &mut buffer) {
            Ok(Some((count, from))) => self.take_at(wire, pace, time, from, &buffer[..count]),
            Ok(None) => {}
            Err(_) => {}
        }
    }

    // Lets the client time out in a round.
    fn time_out<W: Wire>(&mut self, wire: &mut W, pace: Pace, time: u64)
        ensures { MakesRan (λ ok. round_timeout pace time self.old ok) self.new (W.calls wire.old) (W.calls wire.new) }
    {
        self.left = moment_after(pace.pause, time);
        let out = self.client.take_timeout();
        send(wire, &out);
    }

    // Makes one round. Returns whether the client timed out.
    fn make_round<W: ReadyWire>(&mut self, wire: &mut W, pace: Pace) -> bool
        ensures { MakesRunRound pace result self.old self.new (W.calls wire.old) (W.calls wire.new) }
    {
        let end = pace.wait_end(self.left);
        let ready = wire.wait(0, Some(end));
        if is_past(end, ready.settled) {
            self.time_out(wire, pace, ready.time);
            return true;
        }
        if is_ready(self.port, ready.port) {
            self.receive_at(wire, pace, ready.time);
        }
        false
    }

    /// Makes one round: waits until a datagram arrives, which is then a step, or until the client times out, `TIMEOUT`
    /// milliseconds after it last sent anything but an ERROR. No datagram holds the time-out back.
    pub fn round<W: ReadyWire>(&mut self, wire: &mut W)
        ensures { MakesRunStep (IsRunRound asking) self.old self.new (W.calls wire.old) (W.calls wire.new) }
    {
        self.make_round(wire, Pace::asking());
    }

    // Makes rounds until the transfer has ended, at most `rounds`.
    fn rounds_on<W: ReadyWire>(&mut self, wire: &mut W, rounds: u64)
        ensures { MakesRunSteps (IsRunRound asking) has_ended rounds self.old self.new (W.calls wire.old) (W.calls wire.new) }
    {
        for _round in 0..rounds {
            if self.client().has_ended() {
                return;
            }
            self.round(wire);
        }
    }

    /// Makes rounds until the transfer has ended, at most `rounds`. The first time-out is `TIMEOUT` milliseconds from
    /// now.
    pub(crate) fn rounds<W: ReadyWire>(&mut self, wire: &mut W, rounds: u64)
        ensures { MakesRunRounds rounds self.old self.new (W.calls wire.old) (W.calls wire.new) }
    {
        self.set_timer(wire, TIMEOUT);
        self.rounds_on(wire, rounds);
    }

    // Makes rounds until the client times out, at most `rounds`.
    fn dally_on<W: ReadyWire>(&mut self, wire: &mut W, pace: Pace, rounds: u64)
        ensures { DalliesFor pace rounds self.old self.new (W.calls wire.old) (W.calls wire.new) }
    {
        for _round in 0..rounds {
            if self.make_round(wire, pace) {
                return;
            }
        }
    }
}

impl<A: Allocator + Copy> Run<Put<A>> {
    /// Opens a port and sends from there the request to put this file. `server` is the server's host and request port.
    /// A request that is not sent is a loss.
    ///
    /// # Errors
    ///
    /// `Socket` if no port was opened; `Transfer(TooLong)` exactly if one was and the file has more than `MAX_FILE`
    /// bytes, and the port is closed again. The file is dropped.
    pub fn begin<W: Wire>(
        wire: &mut W,
        server: Endpoint,
        file: Vec<u8, A>,
    ) -> Result<Self, RunFault>
        ensures { Begins server (putting file.items) result (W.calls wire.old) (W.calls wire.new) }
    {
        let port = match wire.open() {
            Ok(port) => port,
            Err(_) => return Err(RunFault::Socket),
        };
        match Put::start(port, server, file) {
            Ok((client, request)) => {
                let _ = wire.send(&request);
                Ok(Run {
                    client,
                    port,
                    left: QUIET_TURNS,
                })
            }
            Err(_) => {
                let _ = wire.close(port);
                Err(RunFault::Transfer(Cause::TooLong))
            }
        }
    }
}

impl<A: Allocator + Copy> Run<Get<A>> {
    /// Opens a port and sends from there the request for the collection of this ruleset. `server` is the server's host
    /// and request port. A request that is not sent is a loss. Received blocks are kept in memory of `alloc`.
    ///
    /// # Errors
    ///
    /// `Socket` if no port was opened.
    pub fn begin<W: Wire>(
        alloc: A,
        wire: &mut W,
        server: Endpoint,
        ruleset: Ruleset,
    ) -> Result<Self, RunFault>
        ensures { Begins server (getting «ruleset») result (W.calls wire.old) (W.calls wire.new) }
    {
        let port = match wire.open() {
            Ok(port) => port,
            Err(_) => return Err(RunFault::Socket),
        };
        let (client, request) = Get::start(alloc, port, server, ruleset);
        let _ = wire.send(&request);
        Ok(Run {
            client,
            port,
            left: QUIET_TURNS,
        })
    }

    /// Dallies, once the client has the file: acknowledges a repeated last block, in case the last ACK was lost (RFC 1350
    /// section 6). Ends when nothing was acknowledged for `DALLY_PAUSE` milliseconds, after `DALLY_LIMIT` at the latest,
    /// and after `rounds` rounds in any case.
    pub fn dally<W: ReadyWire>(&mut self, wire: &mut W, rounds: u64)
        ensures { MakesDally rounds self.old self.new (W.calls wire.old) (W.calls wire.new) }
    {
        let time = self.set_timer(wire, DALLY_PAUSE);
        self.dally_on(wire, Pace::dallying(time), rounds);
    }
}
