//! The open ports, and whose turn it is among those with unread datagrams.

ghost use Rattle.std.specs.Prelude.{◌≡◌, ◌≢◌, ◌==◌, ◌<◌, ◌++◌, ◌∷◌, [], length, map, find, option_copied, All, IfSome, IfNone, OnOk, OnErr, slice_get, Some};
ghost use Rattle.archive_wire.specs.Wire.{lesser};
ghost use Rattle.archive_sockets.specs.Arrivals.{first_port, is_unused, ready_least, ready_above, one_may_have_more, marked_read, Closes};

use crate::open_port::OpenPort;
use std::alloc::{AllocError, Global};

/// The ports that are open, in the order in which they were opened.
#[derive(Drop)]
pub(crate) struct OpenPorts {
    ports: Vec<OpenPort>,
}

// The lesser of a port and the least so far.
fn lesser(least: Option<u16>, port: u16) -> Option<u16>
    ensures { result ≡ lesser least port }
{
    match least {
        None => Some(port),
        Some(least) => Some(least.min(port)),
    }
}

// The first of these ports with this number.
fn find_in(ports: &[OpenPort], port: u16) -> Option<&OpenPort>
    ensures { option_copied result ≡ find (λ o. o.port == port) ports.now }
{
    ports.iter().find(|open| open.port() == port)
}

// Marks the ports that were read as ready again.
fn mark_read_in(ports: &mut [OpenPort])
    ensures { ports.new ≡ map marked_read ports.old }
{
    for open in ports.iter_mut() {
        open.mark_read();
    }
}

impl OpenPorts {
    /// Returns one without ports. Does not allocate.
    pub(crate) fn new(alloc: Global) -> Self {
        OpenPorts {
            ports: Vec::new(alloc),
        }
    }

    /// Adds a port.
    ///
    /// # Errors
    ///
    /// Out of memory: the port is closed again, and the others do not change.
    pub(crate) fn push(&mut self, port: OpenPort) -> Result<(), AllocError>
        ensures ok { OnOk result (self.new.ports.items ≡ self.old.ports.items ++ port ∷ []) }
        ensures err { OnErr result (self.new.ports.items ≡ self.old.ports.items) }
    {
        self.ports.push(port)?;
        Ok(())
    }

    // The index of a port in the list.
    fn index_of(&self, port: u16) -> Option<usize>
        ensures within { IfSome result (λ i. i < length self.now.ports.items) }
        ensures port { IfSome result (λ i. (o : _) → slice_get self.now.ports.items i ≡ Some o → o.port ≡ port) }
        ensures none { IfNone result (All (λ o. o.port ≢ port) self.now.ports.items) }
    {
        self.ports.iter().position(|open| open.port() == port)
    }

    /// The port that was opened first, as long as it is open.
    pub(crate) fn first(&self) -> Option<u16>
        ensures { result ≡ first_port self.now.ports.items }
    {
        match self.ports.as_slice() {
            [] => None,
            [open, ..] => Some(open.port()),
        }
    }

    /// Whether a port is open, and no datagram was sent from there or received.
    pub(crate) fn is_unused(&self, port: u16) -> bool
        ensures { result ≡ is_unused port self.now.ports.items }
    {
        match find_in(&self.ports, port) {
            Some(open) => !open.is_used(),
            None => false,
        }
    }

    /// The open port with this number, to be changed.
    pub(crate) fn get_mut(&mut self, port: u16) -> Option<&mut OpenPort>
        ensures { IfSome result (λ o. o.now.port ≡ port) }
    {
        let i = self.index_of(port)?;
        Some(&mut self.ports[i])
    }

    /// Closes a port. Returns whether it was open.
    pub(crate) fn close(&mut self, port: u16) -> bool
        ensures { Closes port result self.old.ports.items self.new.ports.items }
    {
        match self.index_of(port) {
            Some(i) => {
                self.ports.remove(i);
                true
            }
            None => false,
        }
    }

    /// The least ready port above `after`.
    pub(crate) fn ready_above(&self, after: u16) -> Option<u16>
        ensures { result ≡ ready_above after self.now.ports.items }
    {
        let mut least = None;
        for open in &self.ports {
            if open.is_ready() && open.port() > after {
                least = lesser(least, open.port());
            }
        }
        least
    }

    /// The least ready port.
    pub(crate) fn ready_least(&self) -> Option<u16>
        ensures { result ≡ ready_least self.now.ports.items }
    {
        let mut least = None;
        for open in &self.ports {
            if open.is_ready() {
                least = lesser(least, open.port());
            }
        }
        least
    }

    /// Whether one of the ports may have a datagram that was not read.
    pub(crate) fn may_have_more(&self) -> bool
        ensures { result ≡ one_may_have_more self.now.ports.items }
    {
        let mut is_found = false;
        for open in &self.ports {
            if open.may_have_more() {
                is_found = true;
            }
        }
        is_found
    }

    /// Marks the ports that were read since the last report, so that they are read again.
    pub(crate) fn mark_read(&mut self)
        ensures { self.new.ports.items ≡ map marked_read self.old.ports.items }
    {
        mark_read_in(&mut self.ports[..]);
    }
}
