//! A wire that shows the progress of the transfer over it.

ghost use Rattle.std.specs.Prelude.{◌≡◌, ◌≤◌, [], ◌∷◌, max, true, None, is_some, OnErr, IfErr, IfOk, IfSome};
ghost use Rattle.tftp_packet.specs.Decode.{decode_bytes};
ghost use Rattle.byte_output.specs.Failures.{Rises};
ghost use Rattle.archive_wire.specs.Wire.{Grows, opened, closed, received, sent, waited, port_opened, was_done};
ghost use Rattle.archive_progress.specs.Shown.{Draws, Erases, contents_of};
ghost use Rattle.archive_progress.specs.Tally.{acknowledged, due_at, updated, new_tally};

use crate::drawing::{draw, erase};
use crate::tally::Tally;
use archive_wire::{RECEIVE_SIZE, Ready, ReadyWire, Wire, WireFault};
use std::alloc::Global;
use std::io::Write;
use tftp_packet::{Endpoint, Out};

/// A wire that shows on a terminal how far the transfer over it has come, by what is sent, and by the clock of the wire
/// below. In all else it is that wire. What cannot be written to the terminal is left out.
#[derive(Drop)]
pub struct ProgressWire<N: ReadyWire, W: Write> {
    wire: N,
    alloc: Global,
    terminal: Option<W>,
    tally: Tally,
}

impl<N: ReadyWire, W: Write> ProgressWire<N, W> {
    /// Returns a wire over this one. Without a terminal it shows nothing.
    pub fn new(alloc: Global, wire: N, terminal: Option<W>) -> Self
        ensures wire { result.wire ≡ wire }
        ensures terminal { result.terminal ≡ terminal }
        ensures tally { result.tally ≡ new_tally }
    {
        ProgressWire {
            wire,
            alloc,
            terminal,
            tally: Tally::new(),
        }
    }

    /// The wire below.
    pub fn wire(&self) -> &N
        ensures { result.now ≡ self.now.wire }
    {
        &self.wire
    }

    /// The length in bytes of the file of the transfer, as `begin` said it.
    pub fn length(&self) -> Option<u64>
        ensures { result ≡ self.now.tally.length }
    {
        self.tally.length
    }

    /// The next transfer begins: nothing is counted of it yet. The length in bytes of its file is that of a put; a get does
    /// not know it.
    pub fn begin(&mut self, length: Option<u64>)
        ensures wire { self.new.wire ≡ self.old.wire }
        ensures tally { self.new.tally ≡ record new_tally { length = length; drawn = self.old.tally.drawn } }
        ensures terminal { self.new.terminal ≡ self.old.terminal }
    {
        self.tally.begin(length);
    }

    // Draws the line if that is due at this time.
    fn show(&mut self, time: u64)
        ensures wire { self.new.wire ≡ self.old.wire }
        ensures tally { self.new.tally ≡ updated time self.old.tally }
        ensures shown { Draws (due_at time self.old.tally) (contents_of W.contents self.old.terminal) (contents_of W.contents self.new.terminal) }
    {
        let due = self.tally.update(time);
        if let (Some(progress), Some(terminal)) = (due, &mut self.terminal) {
            let _ = draw(self.alloc, &progress, terminal);
        }
    }

    /// The transfer has ended: the line is erased, and not drawn any more.
    pub fn finish(&mut self)
        ensures wire { self.new.wire ≡ self.old.wire }
        ensures ended { self.new.tally ≡ record self.old.tally { drawn = None; ended = true } }
        ensures shown { Erases (is_some self.old.tally.drawn) (contents_of W.contents self.old.terminal) (contents_of W.contents self.new.terminal) }
    {
        let is_drawn = self.tally.finish();
        if let Some(terminal) = &mut self.terminal {
            if is_drawn {
                let _ = erase(terminal);
            }
        }
    }
}

impl<N: ReadyWire, W: Write> Wire for ProgressWire<N, W> {
    ghost calls = { λ w. N.calls w.wire };

    ghost failed = { λ w. N.failed w.wire };

    fn open(&mut self) -> Result<u16, WireFault>
        ensures calls { Grows (N.calls self.old.wire) (N.calls self.new.wire) (opened (port_opened result) ∷ []) }
        ensures fault { IfErr result (λ e. e ≡ WireFault.Open) }
        ensures failed { OnErr result (Rises (N.failed self.old.wire) (N.failed self.new.wire)) }
        ensures tally { self.new.tally ≡ self.old.tally }
        ensures terminal { self.new.terminal ≡ self.old.terminal }
    {
        self.wire.open()
    }

    fn close(&mut self, port: u16) -> Result<(), WireFault>
        ensures calls { Grows (N.calls self.old.wire) (N.calls self.new.wire) (closed port (was_done result) ∷ []) }
        ensures fault { IfErr result (λ e. e ≡ WireFault.Close) }
        ensures failed { OnErr result (Rises (N.failed self.old.wire) (N.failed self.new.wire)) }
        ensures tally { self.new.tally ≡ self.old.tally }
        ensures terminal { self.new.terminal ≡ self.old.terminal }
    {
        self.wire.close(port)
    }

    fn receive(
        &mut self,
        port: u16,
        buffer: &mut [u8; RECEIVE_SIZE],
    ) -> Result<Option<(usize, Endpoint)>, WireFault>
        ensures calls { Grows (N.calls self.old.wire) (N.calls self.new.wire) (received port result buffer.new ∷ []) }
        ensures count { IfOk result (λ got. IfSome got (λ g. g.0 ≤ RECEIVE_SIZE)) }
        ensures fault { IfErr result (λ e. e ≡ WireFault.Receive) }
        ensures failed { OnErr result (Rises (N.failed self.old.wire) (N.failed self.new.wire)) }
        ensures tally { self.new.tally ≡ self.old.tally }
        ensures terminal { self.new.terminal ≡ self.old.terminal }
    {
        self.wire.receive(port, buffer)
    }

    fn send(&mut self, out: &Out) -> Result<(), WireFault>
        ensures calls { Grows (N.calls self.old.wire) (N.calls self.new.wire) (sent out.now (was_done result) ∷ []) }
        ensures fault { IfErr result (λ e. e ≡ WireFault.Send) }
        ensures failed { OnErr result (Rises (N.failed self.old.wire) (N.failed self.new.wire)) }
        ensures tally { self.new.tally ≡ record self.old.tally { blocks = max self.old.tally.blocks (acknowledged (decode_bytes out.now.dgram)) } }
        ensures terminal { self.new.terminal ≡ self.old.terminal }
    {
        self.tally.count(out.dgram.bytes());
        self.wire.send(out)
    }

    fn failures(&self) -> u64 {
        self.wire.failures()
    }
}

impl<N: ReadyWire, W: Write> ReadyWire for ProgressWire<N, W> {
    fn wait(&mut self, after: u16, until: Option<u64>) -> Ready
        ensures calls { Grows (N.calls self.old.wire) (N.calls self.new.wire) (waited after until result.port result.time result.settled ∷ []) }
        // The line is drawn if that is due at the time of the wire's clock.
        ensures tally { self.new.tally ≡ updated result.time self.old.tally }
        ensures shown { Draws (due_at result.time self.old.tally) (contents_of W.contents self.old.terminal) (contents_of W.contents self.new.terminal) }
    {
        let ready = self.wire.wait(after, until);
        self.show(ready.time);
        ready
    }
}
