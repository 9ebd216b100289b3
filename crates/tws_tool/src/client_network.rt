//! The wire of a client over the system's ports.

ghost use Rattle.std.specs.Prelude.{None};

use crate::refusal_wire::RefusalWire;
use archive_commands::Network;
use archive_progress::ProgressWire;
use archive_sockets::UdpWire;
use std::alloc::Global;
use std::io::Write;
use std::net::Net;
use std::random::RandomSource;
use std::time::Clock;

/// Gives wires over ports of the system. The first one shows on a terminal, if there is one, how far a transfer has come.
#[derive(Drop)]
pub(crate) struct ClientNetwork<
    P: Net + Clock + RandomSource + AllocGlobal + Copy,
    T: Write + Drop,
> {
    rt: P,
    terminal: Option<T>,
}

impl<P: Net + Clock + RandomSource + AllocGlobal + Copy, T: Write + Drop> ClientNetwork<P, T> {
    pub(crate) fn new(rt: P, terminal: Option<T>) -> Self {
        ClientNetwork { rt, terminal }
    }
}

impl<P: Net + Clock + RandomSource + AllocGlobal + Copy, T: Write + Drop> Network
    for ClientNetwork<P, T> {
    type Wire = ProgressWire<RefusalWire<P>, T>;

    ghost first_calls = { λ _. None };

    fn wire(&mut self, alloc: Global) -> Self::Wire {
        let wire = RefusalWire::new(UdpWire::new(self.rt));
        ProgressWire::new(alloc, wire, self.terminal.take())
    }
}
