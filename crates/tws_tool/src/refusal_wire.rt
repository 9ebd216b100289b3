//! The wire of a client over the system's ports.

ghost use Rattle.std.specs.Prelude.{◌≡◌, ◌≤◌, [], ◌∷◌, length, take, OnErr, IfOk, IfErr, IfSome};
ghost use Rattle.byte_output.specs.Failures.{Rises};
ghost use Rattle.tftp_packet.specs.Decode.{decode_bytes};
ghost use Rattle.archive_wire.specs.Wire.{Grows, received};
ghost use Rattle.tws_tool.specs.Refusals.{heard, refusal_after};

use archive_commands::{Reached, TransferWire};
use archive_sockets::UdpWire;
use archive_wire::{RECEIVE_SIZE, Ready, ReadyWire, Wire, WireFault};
use arrayvec::ArrayVec;
use std::io;
use std::net::Net;
use std::random::RandomSource;
use std::time::Clock;
use tftp_packet::{Endpoint, Out, Packet, decode};

// How many bytes of a refusal are kept.
const REFUSAL: usize = 128;

/// A wire over ports of the system that notes the text of the last ERROR that is received, and how far the last transfer came
/// by what is sent, and closes a port once the next one is open: else what still arrives there would keep a later transfer from
/// its wait. In all else it is the wire below.
#[derive(Drop)]
pub(crate) struct RefusalWire<P: Net + Clock + RandomSource + AllocGlobal + Copy> {
    wire: UdpWire<P>,
    refusal: ArrayVec<u8, REFUSAL>,
    port: Option<u16>,
    // What is known of the transfer at this port, once it has asked.
    reached: Option<Reached>,
}

impl<P: Net + Clock + RandomSource + AllocGlobal + Copy> RefusalWire<P> {
    pub(crate) fn new(wire: UdpWire<P>) -> Self
        ensures { result.wire ≡ wire }
    {
        RefusalWire {
            wire,
            refusal: ArrayVec::new(),
            port: None,
            reached: None,
        }
    }
}

// What a text begins with, as much as is kept.
fn beginning(text: &[u8]) -> &[u8]
    ensures bytes { result.now ≡ take REFUSAL text.now }
    ensures few { length result.now ≤ REFUSAL }
{
    if text.len() <= REFUSAL {
        return text;
    }
    &text[..REFUSAL]
}

// Keeps what a text begins with, in place of what was kept.
fn keep(refusal: &mut ArrayVec<u8, REFUSAL>, text: &[u8])
    ensures { refusal.new.items ≡ take REFUSAL text.now }
{
    refusal.clear();
    let Ok(()) = refusal.try_extend_from_slice(beginning(text)) else {
        unreachable!();
    };
}

// Notes the text of an ERROR, if these bytes are one.
fn note(refusal: &mut ArrayVec<u8, REFUSAL>, bytes: &[u8])
    ensures { refusal.new.items ≡ refusal_after refusal.old.items (decode_bytes bytes.now) }
{
    match decode(bytes) {
        Ok(Packet::Read { .. }) => {}
        Ok(Packet::Write { .. }) => {}
        Ok(Packet::Data { .. }) => {}
        Ok(Packet::Ack { .. }) => {}
        Ok(Packet::Error { text, .. }) => keep(refusal, text),
        Err(_) => {}
    }
}

impl<P: Net + Clock + RandomSource + AllocGlobal + Copy> Wire for RefusalWire<P> {
    ghost calls = { λ w. ⟦<UdpWire<P> as Wire>⟧.calls w.wire };

    ghost failed = { λ w. ⟦<UdpWire<P> as Wire>⟧.failed w.wire };

    fn open(&mut self) -> Result<u16, WireFault> {
        let port = match self.wire.open() {
            Ok(port) => port,
            Err(fault) => return Err(fault),
        };
        if let Some(last) = self.port {
            let _ = self.wire.close(last);
        }
        self.port = Some(port);
        self.reached = None;
        Ok(port)
    }

    fn close(&mut self, port: u16) -> Result<(), WireFault> {
        if self.port == Some(port) {
            self.port = None;
        }
        self.wire.close(port)
    }

    fn receive(
        &mut self,
        port: u16,
        buffer: &mut [u8; RECEIVE_SIZE],
    ) -> Result<Option<(usize, Endpoint)>, WireFault>
        ensures calls { Grows (⟦<UdpWire<P> as Wire>⟧.calls self.old.wire) (⟦<UdpWire<P> as Wire>⟧.calls self.new.wire) (received port result buffer.new ∷ []) }
        ensures count { IfOk result (λ got. IfSome got (λ g. g.0 ≤ RECEIVE_SIZE)) }
        ensures fault { IfErr result (λ e. e ≡ WireFault.Receive) }
        ensures failed { OnErr result (Rises (⟦<UdpWire<P> as Wire>⟧.failed self.old.wire) (⟦<UdpWire<P> as Wire>⟧.failed self.new.wire)) }
        ensures heard { self.new.refusal.items ≡ heard self.old.refusal.items result buffer.new }
    {
        match self.wire.receive(port, buffer) {
            Ok(Some((count, peer))) => {
                note(&mut self.refusal, &buffer[..count]);
                Ok(Some((count, peer)))
            }
            Ok(None) => Ok(None),
            Err(fault) => Err(fault),
        }
    }

    fn send(&mut self, out: &Out) -> Result<(), WireFault> {
        let mut reached = match self.reached {
            Some(reached) => reached,
            None => Reached::asking(out.to),
        };
        reached.note(out.dgram.bytes());
        self.reached = Some(reached);
        self.wire.send(out)
    }

    fn failures(&self) -> u64 {
        self.wire.failures()
    }
}

impl<P: Net + Clock + RandomSource + AllocGlobal + Copy> ReadyWire for RefusalWire<P> {
    fn wait(&mut self, after: u16, until: Option<u64>) -> Ready {
        self.wire.wait(after, until)
    }
}

impl<P: Net + Clock + RandomSource + AllocGlobal + Copy> TransferWire for RefusalWire<P> {
    ghost refusal_of = { λ w. w.refusal.items };

    ghost reached_of = { λ w. w.reached };

    fn refusal(&self) -> &[u8] {
        self.refusal.as_slice()
    }

    fn last_error(&self) -> Option<io::Error> {
        self.wire.last_error()
    }

    fn reached(&self) -> Option<Reached> {
        self.reached
    }

    // A transfer begins with its port.
    fn begin(&mut self, _length: Option<u64>) {}

    fn finish(&mut self) {}
}
