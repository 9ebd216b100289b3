//! What sends and receives datagrams at ports.

ghost use Rattle.std.specs.Prelude.{◌≡◌, ◌≤◌, ℕ, List, [], ◌∷◌, Option, OnErr, IfErr, IfOk, IfSome};
ghost use Rattle.byte_output.specs.Failures.{Rises};
ghost use Rattle.archive_wire.specs.Wire.{Entry, Grows, opened, closed, sent, port_opened, was_done, received};

use crate::wire_fault::WireFault;
use tftp_packet::{Endpoint, MAX_DATAGRAM, Out};

/// How many bytes of a datagram `receive` takes: one more than any packet has, so that a longer datagram can be
/// recognised.
pub const RECEIVE_SIZE: usize = MAX_DATAGRAM + 1;

/// Sends and receives datagrams: UDP ports on this host.
pub trait Wire {
    /// An entry for each call, in order, if this wire has a ghost log. Once it has none, it never has one
    /// again.
    ghost calls: { Self → Option (List Entry) };

    /// The number of calls that failed so far, saturating at `u64::MAX`.
    ghost failed: { Self → ℕ };

    /// Opens a port that the wire chooses. It need not be a fresh one.
    ///
    /// # Errors
    ///
    /// `Open`, only if `failures` rose in this call or is `u64::MAX`.
    fn open(&mut self) -> Result<u16, WireFault>
        ensures calls { Grows (calls self.old) (calls self.new) (opened (port_opened result) ∷ []) }
        ensures fault { IfErr result (λ e. e ≡ WireFault.Open) }
        ensures failed { OnErr result (Rises (failed self.old) (failed self.new)) };

    /// Closes a port.
    ///
    /// # Errors
    ///
    /// `Close`, only if `failures` rose in this call or is `u64::MAX`.
    fn close(&mut self, port: u16) -> Result<(), WireFault>
        ensures calls { Grows (calls self.old) (calls self.new) (closed port (was_done result) ∷ []) }
        ensures fault { IfErr result (λ e. e ≡ WireFault.Close) }
        ensures failed { OnErr result (Rises (failed self.old) (failed self.new)) };

    /// Receives the next datagram at a port. Returns how many of its bytes are in the buffer and the endpoint that it
    /// came from, or `None` if nothing arrived within the wire's wait.
    ///
    /// # Errors
    ///
    /// `Receive`, only if `failures` rose in this call or is `u64::MAX`.
    fn receive(
        &mut self,
        port: u16,
        buffer: &mut [u8; RECEIVE_SIZE],
    ) -> Result<Option<(usize, Endpoint)>, WireFault>
        ensures calls { Grows (calls self.old) (calls self.new) (received port result buffer.new ∷ []) }
        ensures count { IfOk result (λ got. IfSome got (λ g. g.0 ≤ RECEIVE_SIZE)) }
        ensures fault { IfErr result (λ e. e ≡ WireFault.Receive) }
        ensures failed { OnErr result (Rises (failed self.old) (failed self.new)) };

    /// Sends a datagram from its port.
    ///
    /// # Errors
    ///
    /// `Send`, only if `failures` rose in this call or is `u64::MAX`.
    fn send(&mut self, out: &Out) -> Result<(), WireFault>
        ensures calls { Grows (calls self.old) (calls self.new) (sent out.now (was_done result) ∷ []) }
        ensures fault { IfErr result (λ e. e ≡ WireFault.Send) }
        ensures failed { OnErr result (Rises (failed self.old) (failed self.new)) };

    /// The number of calls that failed so far, saturating at `u64::MAX`.
    fn failures(&self) -> u64
        ensures { result ≡ failed self.now };
}
