//! A wire that reports which ports are ready.

ghost use Rattle.std.specs.Prelude.{[], ◌∷◌};
ghost use Rattle.archive_wire.specs.Wire.{Grows, waited};

use crate::wire::Wire;

/// The result of a wait for ready ports.
#[derive(Clone, Copy, Debug, PartialEq, Eq)]
pub struct Ready {
    /// The port at which a datagram waits, if any.
    pub port: Option<u16>,
    /// The time of the wire's clock, in milliseconds.
    pub time: u64,
    /// The time up to which all that arrived was handed out, if the wire has just found that: each port at which a
    /// datagram waited then was returned since. So nothing waited then at a port that was not returned.
    pub settled: Option<u64>,
}

/// A wire that reports which port is ready, and has a clock.
pub trait ReadyWire: Wire {
    /// Waits until a datagram arrives at a port, or until the moment `until` of the wire's clock, if there is one.
    /// Returns the next ready port above `after`, or the least of all if there is none above, and the time.
    fn wait(&mut self, after: u16, until: Option<u64>) -> Ready
        ensures { Grows (Self.calls self.old) (Self.calls self.new) (waited after until result.port result.time result.settled ∷ []) };
}
