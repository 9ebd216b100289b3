//! One transfer at the server.

ghost use Rattle.std.specs.Prelude.{◌≡◌};
ghost use Rattle.archive_table.specs.Table.{is_done, is_same};
ghost use Rattle.archive_table.specs.Events.{block_of, broken_by, finished_by};

use crate::end::End;
use crate::incoming::Incoming;
use crate::step_event::{FailureCause, StepEvent};
use std::alloc::Allocator;
use std::marker::Model;
use std::rc::Rc;
use tftp_ends::Sender;
use tftp_packet::Endpoint;
use tws_best::Snapshot;

/// A transfer: its peer, and the server's end of it.
#[derive(Drop)]
pub(crate) struct Transfer<A: Allocator + Copy> {
    pub(crate) peer: Endpoint,
    pub(crate) end: End<Sender<Rc<Snapshot<A>, A>>, Incoming<A>>,
}

impl<A: Allocator + Copy> Model for Transfer<A> {
    ghost use Rattle.archive_table.specs.Table.{Transfer as Transferring};

    ghost Value = { Transferring };

    ghost use Rattle.archive_table.specs.View.{transfer_of};

    ghost view = { transfer_of };
}

impl<A: Allocator + Copy> Transfer<A> {
    /// Whether this endpoint is the peer. A datagram from any other does not belong to the transfer, RFC 1350 section
    /// 4.
    pub(crate) fn is_with(&self, from: Endpoint) -> bool
        ensures { result ≡ is_same from self.now.peer }
    {
        from.host == self.peer.host && from.port == self.peer.port
    }

    /// Whether it dallies: it has received its whole file, and waits only for a repeated last block.
    pub(crate) fn is_dallying(&self) -> bool
        ensures { result ≡ is_done self.now.end }
    {
        match &self.end {
            End::Sending(_) => false,
            End::Receiving(incoming) => incoming.is_complete(),
        }
    }

    // The last block that the server sent or received.
    fn block(&self) -> u16
        ensures { result ≡ block_of self.now.end }
    {
        match &self.end {
            End::Sending(sender) => sender.current(),
            End::Receiving(incoming) => incoming.count(),
        }
    }

    /// What it means that the transfer ends for this reason.
    pub(crate) fn broken_by(&self, why: FailureCause) -> StepEvent
        ensures { result ≡ broken_by why self.now.end }
    {
        if self.is_dallying() {
            StepEvent::Nothing
        } else {
            StepEvent::Failed {
                block: self.block(),
                why,
            }
        }
    }

    /// What it means that an ACK ends the transfer.
    pub(crate) fn finished(&self) -> StepEvent
        ensures { result ≡ finished_by self.now.end }
    {
        match &self.end {
            End::Sending(sender) => StepEvent::Finished {
                bytes: sender.file_len(),
            },
            End::Receiving(_) => StepEvent::Nothing,
        }
    }
}
