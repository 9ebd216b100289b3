//! The system's reports about open ports.

use crate::open_port::OpenPort;
use crate::open_ports::OpenPorts;
use mio::{Events, Poll};
use std::alloc::Global;
use std::io;
use std::io::ErrorKind;
use std::net::Net;
use std::time::Duration;
use tftp_packet::Endpoint;

// The most reports that one poll takes. The rest are left to the next one.
const REPORTS: usize = 64;

/// The system's reports about open ports.
#[derive(Drop)]
pub(crate) struct Watch {
    poll: Poll,
    events: Events,
}

impl Watch {
    /// Returns a watch without ports.
    ///
    /// # Errors
    ///
    /// Those of the system, and out of memory.
    pub(crate) fn new<N: Net>(net: &N, alloc: Global) -> io::Result<Self> {
        let poll = Poll::new(net)?;
        match Events::with_capacity(alloc, REPORTS) {
            Ok(events) => Ok(Watch { poll, events }),
            Err(_) => Err(io::Error::from(ErrorKind::OutOfMemory)),
        }
    }

    /// Opens a port at this address of this host, 0 for every address, and watches it.
    ///
    /// # Errors
    ///
    /// Those of the system. The port is then not open.
    pub(crate) fn open<N: Net>(&self, net: &N, at: Endpoint) -> io::Result<OpenPort> {
        OpenPort::open(net, &self.poll, at)
    }

    /// Waits until a datagram arrives at a port or `millis` milliseconds have passed, without limit if that is `None`,
    /// and marks the ports with arrivals. If the system fails, no port is marked. Returns whether the poll was made: one
    /// that a signal interrupts, as when a process that was stopped goes on, was not.
    pub(crate) fn poll(&mut self, ports: &mut OpenPorts, millis: Option<u64>) -> bool {
        let limit = millis.map(Duration::from_millis);
        if let Err(e) = self.poll.poll(&mut self.events, limit) {
            return e.kind() != ErrorKind::Interrupted;
        }
        for event in self.events.iter() {
            if let Ok(port) = u16::try_from(event.token().0) {
                if let Some(open) = ports.get_mut(port) {
                    open.mark();
                }
            }
        }
        true
    }
}
