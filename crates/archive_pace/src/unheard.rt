//! What is sent to a peer that was never heard.

ghost use Rattle.std.specs.Prelude.{◌≡◌, ◌<◌, [], length, IfSome, IfNone};
ghost use Rattle.std.specs.List.{remove};
ghost use Rattle.archive_pace.specs.Unheard.{added, after_sending, may_send, silent_of, with_port, without};

use crate::limits::{TRIES, UNHEARD};
use arrayvec::ArrayVec;
use std::marker::Model;

/// A port at which nothing was received since it was opened.
#[derive(Clone, Copy, Debug, Default, PartialEq, Eq)]
pub(crate) struct Silent {
    pub(crate) port: u16,
    // How often the first block of a file was sent from it, `TRIES` at most.
    pub(crate) sent: u8,
}

/// The ports at which nothing was received since they were opened. To the peer of such a port the first block of a file is
/// sent `TRIES` times at most: its request may be forged.
#[derive(Drop)]
pub(crate) struct Unheard {
    ports: ArrayVec<Silent, UNHEARD>,
}

impl Model for Unheard {
    ghost use Rattle.std.specs.Prelude.{List};
    ghost use Rattle.archive_pace.specs.declared.unheard.Silent.{Silent};

    ghost Value = { List Silent };

    ghost view = { λ u. u.ports.items };
}

// What is known of a port.
fn silent_in(ports: &[Silent], port: u16) -> Option<Silent>
    ensures { result ≡ silent_of port ports.now }
{
    ports.iter().copied().find(|silent| silent.port == port)
}

// The place of a port.
fn place_of(ports: &[Silent], port: u16) -> Option<usize>
    ensures within { IfSome result (λ i. i < length ports.now) }
    ensures place { IfSome result (λ i. without port ports.now ≡ remove ports.now i) }
    ensures none { IfNone result (without port ports.now ≡ ports.now) }
{
    for (i, silent) in ports.iter().enumerate() {
        if silent.port == port {
            return Some(i);
        }
    }
    None
}

impl Unheard {
    /// Knows of no port.
    pub(crate) fn new() -> Self
        ensures { result ≡ [] }
    {
        Unheard {
            ports: ArrayVec::new(),
        }
    }

    /// Something was received at a port, or it was closed.
    pub(crate) fn forget(&mut self, port: u16)
        ensures { self.new ≡ without port self.old }
    {
        if let Some(place) = place_of(self.ports.as_slice(), port) {
            self.ports.remove(place);
        }
    }

    // Adds a port, if there is room for it.
    fn add(&mut self, silent: Silent)
        ensures { self.new ≡ added silent self.old }
    {
        if !self.ports.is_full() {
            self.ports.push(silent);
        }
    }

    // Notes what is known of a port now.
    fn put(&mut self, silent: Silent)
        ensures { self.new ≡ with_port silent self.old }
    {
        self.forget(silent.port);
        self.add(silent);
    }

    /// A port was opened. It is not known if too many others are.
    pub(crate) fn open(&mut self, port: u16)
        ensures { self.new ≡ with_port (record { port = port; sent = 0 }) self.old }
    {
        self.put(Silent { port, sent: 0 });
    }

    /// Whether the first block of a file may be sent from a port once more. Counts it.
    pub(crate) fn allows(&mut self, port: u16) -> bool
        ensures allowed { result ≡ may_send (silent_of port self.old) }
        ensures counted { self.new ≡ after_sending (silent_of port self.old) self.old }
    {
        let Some(silent) = silent_in(self.ports.as_slice(), port) else {
            return true;
        };
        if silent.sent >= TRIES {
            return false;
        }
        self.put(Silent {
            port: silent.port,
            sent: silent.sent + 1,
        });
        true
    }
}
