//! The live transfers, as far as a log knows them.

ghost use Rattle.std.specs.Prelude.{◌≡◌, ◌<◌, [], length, None, IfSome};
ghost use Rattle.archive_log.specs.Events.{place_of, logged_at, without, opened_in, opened_for, millis_since, event_of, refused_event, taken_event, transfers_after};

use crate::log_event::LogEvent;
use crate::logged_transfer::{LoggedTransfer, TransferKind};
use crate::upload::Upload;
use archive_table::{LIVE, Merged, Step, StepEvent, Taken};
use arrayvec::ArrayVec;
use std::alloc::Allocator;
use std::marker::Model;
use tftp_packet::{Endpoint, Refusal};

/// What a log knows of the live transfers, of which there are at most `LIVE`. Never allocates.
#[derive(Drop)]
pub struct LoggedTransfers {
    live: ArrayVec<LoggedTransfer, LIVE>,
}

impl Model for LoggedTransfers {
    ghost use Rattle.std.specs.Prelude.{List};
    ghost use Rattle.archive_log.specs.declared.logged_transfer.LoggedTransfer.{LoggedTransfer as Plain};

    ghost Value = { List Plain };

    ghost view = { λ s. s.live.items };
}

impl LoggedTransfers {
    /// No transfer.
    pub fn new() -> Self
        ensures { result ≡ [] }
    {
        LoggedTransfers {
            live: ArrayVec::new(),
        }
    }

    // The index of the transfer at a port.
    fn place_of(&self, port: u16) -> Option<usize>
        ensures place { result ≡ place_of port self.now }
        ensures within { IfSome result (λ i. i < length self.now) }
    {
        self.live.iter().position(|transfer| transfer.port == port)
    }

    // The transfer at a port.
    fn at(&self, port: u16) -> Option<LoggedTransfer>
        ensures { result ≡ logged_at port self.now }
    {
        let place = self.place_of(port)?;
        self.live.get(place).copied()
    }

    // Removes the transfer at a port.
    fn remove(&mut self, port: u16)
        ensures { self.new ≡ without port self.old }
    {
        if let Some(place) = self.place_of(port) {
            self.live.remove(place);
        }
    }

    // Adds a transfer in place of the one at its port. If there is no room for it, it is forgotten.
    fn open(&mut self, transfer: LoggedTransfer)
        ensures { self.new ≡ opened_in transfer self.old }
    {
        self.remove(transfer.port);
        if !self.live.is_full() {
            self.live.push(transfer);
        }
    }

    // How long the transfer at a port has lasted, in milliseconds; 0 if there is none.
    fn millis(&self, now: u64, port: u16) -> u64
        ensures { result ≡ millis_since now (logged_at port self.now) }
    {
        match self.at(port) {
            Some(transfer) => now.saturating_sub(transfer.began),
            None => 0,
        }
    }

    // The event that a file was taken.
    fn taken<A: Allocator>(
        &self,
        now: u64,
        port: u16,
        taken: &Option<Taken<A>>,
        merged: Merged,
    ) -> Option<LogEvent<'static>>
        ensures { result ≡ taken_event now (logged_at port self.now) taken.now merged }
    {
        let Some(taken) = taken else {
            return None;
        };
        Some(LogEvent::Taken {
            upload: Upload::of(taken, merged),
            millis: self.millis(now, port),
        })
    }

    // Which event of the log a step is, if any.
    fn event_of<A: Allocator>(
        &self,
        now: u64,
        port: u16,
        from: Option<Endpoint>,
        step: &Step<A>,
    ) -> Option<LogEvent<'static>>
        ensures { result ≡ event_of now (logged_at port self.now) from step.now }
    {
        match step.event() {
            StepEvent::Nothing | StepEvent::OpenedPut | StepEvent::OpenedGet(_) => None,
            StepEvent::Refused(why) => refused_event(from, why),
            StepEvent::Taken(merged) => self.taken(now, port, &step.taken, merged),
            StepEvent::Finished { bytes } => self.at(port)?.finished(now, bytes),
            StepEvent::Failed { block, why } => Some(self.at(port)?.failed(block, why)),
        }
    }

    // Lets the transfers follow a step.
    fn follow<A: Allocator>(&mut self, now: u64, port: u16, from: Option<Endpoint>, step: &Step<A>)
        ensures { self.new ≡ transfers_after now port from step.now self.old }
    {
        match step.event() {
            StepEvent::OpenedPut => self.open_for(now, port, from, TransferKind::Put),
            StepEvent::OpenedGet(ruleset) => {
                self.open_for(now, port, from, TransferKind::Get(ruleset));
            }
            _ => {
                if step.closed {
                    self.remove(port);
                }
            }
        }
    }

    // Adds a transfer with this peer, if it is known.
    fn open_for(&mut self, now: u64, port: u16, peer: Option<Endpoint>, kind: TransferKind)
        ensures { self.new ≡ opened_for now port peer kind self.old }
    {
        if let Some(peer) = peer {
            self.open(LoggedTransfer {
                port,
                peer,
                began: now,
                kind,
            });
        }
    }

    /// Follows a step that was made at a port, and returns which event of the log it is, if any. `now` is in milliseconds,
    /// `port` that of the transfer, also of one that the step opened, and `from` the sender of the datagram of the step.
    pub fn on_step<A: Allocator>(
        &mut self,
        now: u64,
        port: u16,
        from: Option<Endpoint>,
        step: &Step<A>,
    ) -> Option<LogEvent<'static>>
        ensures event { result ≡ event_of now (logged_at port self.old) from step.now }
        ensures transfers { self.new ≡ transfers_after now port from step.now self.old }
    {
        let event = self.event_of(now, port, from, step);
        self.follow(now, port, from, step);
        event
    }
}

// A request that was refused, of a sender that is known.
fn refused_event(from: Option<Endpoint>, why: Refusal) -> Option<LogEvent<'static>>
    ensures { result ≡ refused_event from why }
{
    from.map(|peer| LogEvent::Refused { peer, why })
}
