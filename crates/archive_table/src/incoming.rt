//! A file that a client sends: it is received block by block, and handed out once it is whole.

ghost use Rattle.std.specs.Prelude.{◌≡◌, ◌≤◌, length, OnOk, IfOk};
ghost use Rattle.tftp_ends.specs.Ends.{granted, verdict_of, answer_of, dgram_of, receiver_start, receiver_data, receiver_timeout};
ghost use Rattle.archive_table.specs.Table.{is_complete as complete_state, IsReceiving};
ghost use Rattle.archive_table.specs.Incoming.{receiver_after, file_after, first_of_two};

use std::alloc::Allocator;
use std::marker::Model;
use tftp_ends::{Received, Receiver, RecvFault, RecvState};
use tftp_packet::Dgram;

/// The receiver of a file, from which the file is taken out as soon as it is whole.
#[derive(Drop)]
pub(crate) struct Incoming<A: Allocator + Copy> {
    receiver: Receiver<A>,
}

impl<A: Allocator + Copy> Model for Incoming<A> {
    ghost use Rattle.tftp_ends.specs.Ends.{Receiver as Receiving};

    ghost Value = { Receiving };

    ghost use Rattle.archive_table.specs.Incoming.{incoming_of, IsIncoming};

    ghost view = { incoming_of };

    ghost invariant = { IsIncoming };
}

impl<A: Allocator + Copy> Incoming<A> {
    /// Returns one that has received nothing yet. Does not allocate.
    pub(crate) fn new(alloc: A) -> Self
        ensures receiver { result ≡ receiver_start }
        ensures fits { IsReceiving result }
    {
        Incoming {
            receiver: Receiver::new(alloc),
        }
    }

    /// Handles DATA `n`. Returns the datagram to send, and the file if this block completes it: it is then handed out.
    ///
    /// # Errors
    ///
    /// `TooLong` if the block makes the file too long; `Memory` if an allocation was refused. The receiver is then
    /// unchanged.
    pub(crate) fn on_data(
        &mut self,
        n: u16,
        body: &[u8],
    ) -> Result<(Option<Dgram>, Option<Received<A>>), RecvFault>
        requires short { length body.now ≤ 512 }
        ensures receiver { OnOk result (self.new ≡ receiver_after (receiver_data granted n body.now self.old)) }
        ensures sent { first_of_two result ≡ answer_of (receiver_data (verdict_of result) n body.now self.old).result }
        ensures file { IfOk result (λ r. r.1 ≡ file_after (receiver_data granted n body.now self.old)) }
        ensures fits { IsReceiving self.new }
    {
        let sent = self.receiver.on_data(n, body)?;
        let file = self.receiver.take_file();
        Ok((sent, file))
    }

    /// Handles a time-out. Returns the datagram to send, if any.
    pub(crate) fn on_timeout(&mut self) -> Option<Dgram>
        ensures receiver { self.new ≡ (receiver_timeout self.old).receiver }
        ensures sent { result ≡ dgram_of (receiver_timeout self.old).out }
        ensures fits { IsReceiving self.new }
    {
        self.receiver.on_timeout()
    }

    /// Whether the whole file was received, and its dally is not over.
    pub(crate) fn is_complete(&self) -> bool
        ensures { result ≡ complete_state self.now.state }
    {
        match self.receiver.state() {
            RecvState::Running => false,
            RecvState::Complete => true,
            RecvState::TimedOut => false,
            RecvState::Over => false,
        }
    }

    /// How many blocks were received.
    pub(crate) fn count(&self) -> u16
        ensures { result ≡ self.now.count }
    {
        self.receiver.count()
    }

    /// The receiver's state.
    pub(crate) fn state(&self) -> RecvState
        ensures { result ≡ self.now.state }
    {
        self.receiver.state()
    }
}
