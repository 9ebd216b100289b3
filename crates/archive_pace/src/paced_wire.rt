//! A wire that holds last blocks back.

ghost use Rattle.std.specs.Prelude.{◌≡◌, ◌≢◌, ◌≤◌, ℕ, [], map, take, None, Some, true, false, OnErr, IfOk, IfErr, IfSome, is_some};
ghost use Rattle.tftp_packet.specs.Decode.{decode_bytes};
ghost use Rattle.byte_output.specs.Failures.{Rises};
ghost use Rattle.archive_wire.specs.declared.wire.TheConstants.{RECEIVE_SIZE};
ghost use Rattle.archive_pace.specs.Pace.{heard_by, new_pace};
ghost use Rattle.archive_pace.specs.Queue.{Taken, ended, ends_file, is_free, next_port, waiting_of, without_first};

use crate::limits::PATIENCE;
use crate::queue::Queue;
use archive_wire::{RECEIVE_SIZE, Ready, ReadyWire, Wire, WireFault};
use std::alloc::Global;
use std::time::Clock;
use tftp_packet::{BLOCK_SIZE, Endpoint, Out, Packet, decode};

/// A wire over another that hands the last block of a file out when its time has come, by a `Pace`, and when nothing else is
/// ready, as if the network had been slow: until then the block has not arrived, and its transfer may time out. What a step
/// took is measured from its last block to the next `wait`. The clock is that of the wire below. There are no ghost calls.
#[derive(Drop)]
pub struct PacedWire<W: ReadyWire, C: Clock> {
    wire: W,
    clock: C,
    // The request port, at which nothing is held.
    request: u16,
    // The last known time of the clock, in microseconds.
    time: u64,
    // The port whose block the last `wait` has chosen.
    chosen: Option<u16>,
    queue: Queue,
}

// Whether bytes are a block that ends a file.
fn is_last(bytes: &[u8]) -> bool
    ensures { result ≡ ends_file (decode_bytes bytes.now) }
{
    match decode(bytes) {
        Ok(Packet::Read { .. }) => false,
        Ok(Packet::Write { .. }) => false,
        Ok(Packet::Data { body, .. }) => body.len() < BLOCK_SIZE,
        Ok(Packet::Ack { .. }) => false,
        Ok(Packet::Error { .. }) => false,
        Err(_) => false,
    }
}

// The earlier of the moment until which to wait, in milliseconds, and one in microseconds.
fn sooner_of(until: Option<u64>, first: Option<u64>) -> Option<u64> {
    let Some(first) = first else {
        return until;
    };
    let millis = first.saturating_add(999) / 1000;
    match until {
        Some(until) => Some(until.min(millis)),
        None => Some(millis),
    }
}

impl<W: ReadyWire, C: Clock> PacedWire<W, C> {
    /// Returns a wire over this one, whose request port is `request`. Does not allocate.
    pub fn new(alloc: Global, wire: W, clock: C, request: u16) -> Self
        ensures wire { result.wire ≡ wire }
        ensures request { result.request ≡ request }
        ensures pace { result.queue.pace ≡ new_pace }
        ensures held { result.queue.held.items ≡ [] }
        ensures step { result.queue.step ≡ None }
        ensures chosen { result.chosen ≡ None }
    {
        PacedWire {
            wire,
            clock,
            request,
            time: 0,
            chosen: None,
            queue: Queue::new(alloc),
        }
    }

    // The time of the clock, or the last known time if the system does not report it.
    fn now(&mut self) -> u64
        ensures time { result ≡ self.new.time }
        ensures later { self.old.time ≤ self.new.time }
        ensures wire { self.new.wire ≡ self.old.wire }
        ensures request { self.new.request ≡ self.old.request }
        ensures chosen { self.new.chosen ≡ self.old.chosen }
        ensures queue { self.new.queue ≡ self.old.queue }
    {
        if let Ok(time) = self.clock.monotonic() {
            let micros = u64::try_from(time.as_micros()).unwrap_or(u64::MAX);
            self.time = self.time.max(micros);
        }
        self.time
    }

    // The port whose block is next, if one may have been taken for `PATIENCE`. The first of them may be from `first` on.
    fn overdue(&self, first: Option<u64>, now: u64) -> Option<u16> {
        match first {
            Some(moment) if moment.saturating_add(PATIENCE) <= now => {
                self.queue.next(now.saturating_sub(PATIENCE))
            }
            Some(_) => None,
            None => None,
        }
    }

    // What is handed on of a datagram that the wire below has just received: nothing, if it is a last block.
    fn pass(
        &mut self,
        port: u16,
        count: usize,
        from: Endpoint,
        buffer: &[u8; RECEIVE_SIZE],
    ) -> Option<(usize, Endpoint)>
        requires { count ≤ RECEIVE_SIZE }
        ensures wire { self.new.wire ≡ self.old.wire }
        ensures time { self.new.time ≡ self.old.time }
        ensures pace { self.new.queue.pace ≡ heard_by from.host self.old.time self.old.queue.pace }
        ensures step { self.new.queue.step ≡ self.old.queue.step }
        ensures count { IfSome result (λ g. g.0 ≡ count) }
        ensures held { port ≢ self.old.request → ends_file (decode_bytes (take count buffer.now)) ≡ true → result ≡ None }
    {
        let bytes = &buffer[..count];
        self.queue.hear(from.host, self.time);
        if port != self.request && is_last(bytes) {
            self.queue.hold(port, from, self.time, bytes);
            return None;
        }
        Some((count, from))
    }
}

impl<W: ReadyWire, C: Clock> Wire for PacedWire<W, C> {
    ghost calls = { λ _. None };

    ghost failed = { λ w. W.failed w.wire };

    fn open(&mut self) -> Result<u16, WireFault>
        ensures fault { IfErr result (λ e. e ≡ WireFault.Open) }
        ensures failed { OnErr result (Rises (W.failed self.old.wire) (W.failed self.new.wire)) }
        ensures queue { self.new.queue ≡ self.old.queue }
    {
        self.wire.open()
    }

    fn close(&mut self, port: u16) -> Result<(), WireFault>
        ensures fault { IfErr result (λ e. e ≡ WireFault.Close) }
        ensures failed { OnErr result (Rises (W.failed self.old.wire) (W.failed self.new.wire)) }
        // What is held at the port is lost.
        ensures held { map waiting_of self.new.queue.held.items ≡ without_first port (map waiting_of self.old.queue.held.items) }
        ensures pace { self.new.queue.pace ≡ self.old.queue.pace }
    {
        self.queue.forget(port);
        self.wire.close(port)
    }

    fn receive(
        &mut self,
        port: u16,
        buffer: &mut [u8; RECEIVE_SIZE],
    ) -> Result<Option<(usize, Endpoint)>, WireFault>
        ensures count { IfOk result (λ got. IfSome got (λ g. g.0 ≤ RECEIVE_SIZE)) }
        ensures fault { IfErr result (λ e. e ≡ WireFault.Receive) }
        ensures failed { OnErr result (Rises (W.failed self.old.wire) (W.failed self.new.wire)) }
        // What is held at the port is handed out, if the last wait has chosen it and it may be taken.
        ensures taken { self.old.chosen ≡ Some port → is_free port self.new.time self.old.queue.pace (map waiting_of self.old.queue.held.items) ≡ true → IfOk result (λ got. Taken port self.new.time (map waiting_of self.old.queue.held.items) got buffer.new (map waiting_of self.new.queue.held.items) self.new.queue.step) }
        // A last block is handed out only so.
        ensures unchosen { self.old.chosen ≢ Some port → port ≢ self.old.request → IfOk result (λ got. IfSome got (λ g. ends_file (decode_bytes (take g.0 buffer.new)) ≡ false)) }
        ensures held { port ≢ self.old.request → is_free port self.new.time self.old.queue.pace (map waiting_of self.old.queue.held.items) ≡ false → IfOk result (λ got. IfSome got (λ g. ends_file (decode_bytes (take g.0 buffer.new)) ≡ false)) }
    {
        let now = self.now();
        if self.chosen == Some(port) {
            if let Some(taken) = self.queue.take(port, now, buffer) {
                return Ok(Some(taken));
            }
        }
        match self.wire.receive(port, buffer) {
            Ok(Some((count, from))) => Ok(self.pass(port, count, from, buffer)),
            Ok(None) => Ok(None),
            Err(fault) => Err(fault),
        }
    }

    fn send(&mut self, out: &Out) -> Result<(), WireFault>
        ensures fault { IfErr result (λ e. e ≡ WireFault.Send) }
        ensures failed { OnErr result (Rises (W.failed self.old.wire) (W.failed self.new.wire)) }
        ensures queue { self.new.queue ≡ self.old.queue }
    {
        self.wire.send(out)
    }

    fn failures(&self) -> u64 {
        self.wire.failures()
    }
}

impl<W: ReadyWire, C: Clock> ReadyWire for PacedWire<W, C> {
    fn wait(&mut self, after: u16, until: Option<u64>) -> Ready
        // The step that a last block began has ended.
        ensures noted { (now : ℕ) × (self.new.queue.pace ≡ ended now self.old.queue.step self.old.queue.pace) }
        ensures step { self.new.queue.step ≡ None }
        ensures held { self.new.queue.held ≡ self.old.queue.held }
        // No port is ready only if no block may be taken.
        ensures ready { result.port ≡ None → next_port self.new.time self.new.queue.pace (map waiting_of self.new.queue.held.items) ≡ None }
        // What was chosen, if anything, is the port that is ready.
        ensures chosen { IfSome self.new.chosen (λ port. result.port ≡ Some port) }
        // A block that may be taken has arrived, and is not handed out yet.
        ensures settled { is_some (next_port self.new.time self.new.queue.pace (map waiting_of self.new.queue.held.items)) ≡ true → result.settled ≡ None }
    {
        let now = self.now();
        self.queue.end_step(now);
        let first = self.queue.first();
        self.chosen = self.overdue(first, now);
        if self.chosen.is_some() {
            return Ready {
                port: self.chosen,
                time: now / 1000,
                settled: None,
            };
        }
        let until = sooner_of(until, first);
        let ready = self.wire.wait(after, until);
        let now = self.now();
        let next = self.queue.next(now);
        let port = ready.port.or(next);
        if ready.port.is_none() {
            self.chosen = next;
        }
        Ready {
            port,
            time: ready.time,
            settled: if next.is_some() { None } else { ready.settled },
        }
    }
}
