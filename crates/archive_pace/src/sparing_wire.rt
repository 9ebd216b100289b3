//! A wire that does not go on sending to a peer that was never heard.

ghost use Rattle.std.specs.Prelude.{◌≡◌, ◌≤◌, [], None, true, false, OnErr, Err, IfOk, IfErr, IfSome, is_some};
ghost use Rattle.tftp_packet.specs.Decode.{decode_bytes};
ghost use Rattle.byte_output.specs.Failures.{Rises};
ghost use Rattle.archive_wire.specs.declared.wire.TheConstants.{RECEIVE_SIZE};
ghost use Rattle.archive_pace.specs.Unheard.{after_sending, begins_file, may_send, silent_of, with_port, without};

use crate::unheard::Unheard;
use archive_wire::{RECEIVE_SIZE, Ready, ReadyWire, Wire, WireFault};
use tftp_packet::{Endpoint, Out, Packet, decode};

/// A wire over another that sends the first block of a file at most `TRIES` times from a port at which nothing was received
/// since it was opened: its peer's request may be forged. A send that is left out fails. It has no ghost calls.
#[derive(Drop)]
pub struct SparingWire<W: Wire> {
    wire: W,
    unheard: Unheard,
    failures: u64,
}

// Whether bytes are the first block of a file.
fn is_first(bytes: &[u8]) -> bool
    ensures { result ≡ begins_file (decode_bytes bytes.now) }
{
    match decode(bytes) {
        Ok(Packet::Read { .. }) => false,
        Ok(Packet::Write { .. }) => false,
        Ok(Packet::Data { block, .. }) => block == 1,
        Ok(Packet::Ack { .. }) => false,
        Ok(Packet::Error { .. }) => false,
        Err(_) => false,
    }
}

impl<W: Wire> SparingWire<W> {
    /// Returns a wire over this one, as if all its ports had been heard.
    pub fn new(wire: W) -> Self
        ensures wire { result.wire ≡ wire }
        ensures unheard { result.unheard ≡ [] }
        ensures failures { result.failures ≡ 0 }
    {
        SparingWire {
            wire,
            unheard: Unheard::new(),
            failures: 0,
        }
    }

    // Counts a failure.
    fn count_failure(&mut self)
        ensures failed { Rises self.old.failures self.new.failures }
        ensures unheard { self.new.unheard ≡ self.old.unheard }
        ensures wire { self.new.wire ≡ self.old.wire }
    {
        if self.failures < u64::MAX {
            self.failures += 1;
        }
    }
}

impl<W: Wire> Wire for SparingWire<W> {
    ghost calls = { λ _. None };

    ghost failed = { λ w. w.failures };

    fn open(&mut self) -> Result<u16, WireFault>
        ensures fault { IfErr result (λ e. e ≡ WireFault.Open) }
        ensures failed { OnErr result (Rises self.old.failures self.new.failures) }
        // Nothing was received at the port yet.
        ensures unheard { IfOk result (λ port. self.new.unheard ≡ with_port (record { port = port; sent = 0 }) self.old.unheard) }
        ensures same { OnErr result (self.new.unheard ≡ self.old.unheard) }
    {
        match self.wire.open() {
            Ok(port) => {
                self.unheard.open(port);
                Ok(port)
            }
            Err(_) => {
                self.count_failure();
                Err(WireFault::Open)
            }
        }
    }

    fn close(&mut self, port: u16) -> Result<(), WireFault>
        ensures fault { IfErr result (λ e. e ≡ WireFault.Close) }
        ensures failed { OnErr result (Rises self.old.failures self.new.failures) }
        ensures unheard { self.new.unheard ≡ without port self.old.unheard }
    {
        self.unheard.forget(port);
        match self.wire.close(port) {
            Ok(()) => Ok(()),
            Err(_) => {
                self.count_failure();
                Err(WireFault::Close)
            }
        }
    }

    fn receive(
        &mut self,
        port: u16,
        buffer: &mut [u8; RECEIVE_SIZE],
    ) -> Result<Option<(usize, Endpoint)>, WireFault>
        ensures count { IfOk result (λ got. IfSome got (λ g. g.0 ≤ RECEIVE_SIZE)) }
        ensures fault { IfErr result (λ e. e ≡ WireFault.Receive) }
        ensures failed { OnErr result (Rises self.old.failures self.new.failures) }
        ensures heard { IfOk result (λ got. is_some got ≡ true → self.new.unheard ≡ without port self.old.unheard) }
        ensures quiet { IfOk result (λ got. is_some got ≡ false → self.new.unheard ≡ self.old.unheard) }
        ensures same { OnErr result (self.new.unheard ≡ self.old.unheard) }
    {
        match self.wire.receive(port, buffer) {
            Ok(Some(got)) => {
                self.unheard.forget(port);
                Ok(Some(got))
            }
            Ok(None) => Ok(None),
            Err(_) => {
                self.count_failure();
                Err(WireFault::Receive)
            }
        }
    }

    fn send(&mut self, out: &Out) -> Result<(), WireFault>
        ensures fault { IfErr result (λ e. e ≡ WireFault.Send) }
        ensures failed { OnErr result (Rises self.old.failures self.new.failures) }
        // The first block of a file is counted, and left out if it was sent often enough. Then the wire below stays as it is.
        ensures spared { begins_file (decode_bytes out.now.dgram) ≡ true → may_send (silent_of out.now.from_port self.old.unheard) ≡ false → (result ≡ Err WireFault.Send) × (self.new.wire ≡ self.old.wire) }
        ensures counted { begins_file (decode_bytes out.now.dgram) ≡ true → self.new.unheard ≡ after_sending (silent_of out.now.from_port self.old.unheard) self.old.unheard }
        ensures same { begins_file (decode_bytes out.now.dgram) ≡ false → self.new.unheard ≡ self.old.unheard }
    {
        if is_first(out.dgram.bytes()) && !self.unheard.allows(out.from_port) {
            self.count_failure();
            return Err(WireFault::Send);
        }
        match self.wire.send(out) {
            Ok(()) => Ok(()),
            Err(_) => {
                self.count_failure();
                Err(WireFault::Send)
            }
        }
    }

    fn failures(&self) -> u64 {
        self.failures
    }
}

impl<W: ReadyWire> ReadyWire for SparingWire<W> {
    fn wait(&mut self, after: u16, until: Option<u64>) -> Ready
        ensures unheard { self.new.unheard ≡ self.old.unheard }
    {
        self.wire.wait(after, until)
    }
}
