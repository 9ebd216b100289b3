//! The sending end.

ghost use Rattle.std.specs.Prelude.{◌≡◌, ◌≤◌, ◌==◌, None, Some, true, false, length};
ghost use Rattle.tftp_packet.specs.Packet.{encode};
ghost use Rattle.tftp_packet.specs.Blocks.{block_count};
ghost use Rattle.tftp_ends.specs.Ends.{data_packet, dgram_of, sender_start, sender_ack, sender_timeout, IsSender};

use crate::limits::{MAX_FILE, MISSES};
use crate::send_state::SendState;
use std::marker::Model;
use tftp_packet::{BLOCK_SIZE, Blocks, Dgram, encode_block};

/// The end of a transfer that sends a file: one block, then its ACK, then the next block (RFC 1350 section 2).
///
/// No call allocates.
#[derive(Debug, Drop)]
pub struct Sender<B: Blocks> {
    blocks: B,
    /// The number of the block that was sent last.
    current: u16,
    /// Time-outs in a row without progress.
    misses: u8,
    state: SendState,
}

impl<B: Blocks> Model for Sender<B> {
    ghost use Rattle.tftp_ends.specs.Ends.{Sender as Sending, IsSender};

    ghost Value = { Sending };

    ghost use Rattle.tftp_ends.specs.View.{sender_of};

    ghost view = { sender_of B.file };

    ghost invariant = { λ s. IsSender (sender_of B.file s) };
}

impl<B: Blocks> Sender<B> {
    /// Returns a sender of this file, which has at most `MAX_FILE` bytes, and DATA 1, which is to be sent first.
    pub fn start(blocks: B) -> (Self, Dgram)
        requires { length (B.file blocks) ≤ MAX_FILE }
        ensures sender { result.0 ≡ sender_start (B.file blocks) }
        ensures sent { result.1 ≡ encode (data_packet (B.file blocks) 1) }
        ensures fits { IsSender result.0 }
    {
        let first = encode_block(&blocks, 1);
        let sender = Sender {
            blocks,
            current: 1,
            misses: 0,
            state: SendState::Running,
        };
        (sender, first)
    }

    // Whether the current block is the last one.
    fn is_last(&self) -> bool
        ensures { result ≡ (self.now.current == block_count self.now.file) }
    {
        u64::from(self.current) == self.blocks.file_len() / BLOCK_SIZE as u64 + 1
    }

    /// Handles ACK `n`. Returns whether the next DATA is to be sent, which is then that of `data`. The ACK of the last
    /// block ends the transfer. Any ACK but that of the current block changes nothing and sends nothing, and so does a
    /// repeated one (RFC 1123 section 4.2.3.1).
    pub fn advance(&mut self, n: u16) -> bool
        ensures sender { self.new ≡ (sender_ack n self.old).sender }
        ensures sends { result ≡ true → (sender_ack n self.old).out ≡ Some (data_packet self.new.file self.new.current) }
        ensures silent { result ≡ false → (sender_ack n self.old).out ≡ None }
        ensures running { result ≡ true → self.new.state ≡ SendState.Running }
        ensures fits { IsSender self.new }
    {
        if self.state != SendState::Running || n != self.current {
            return false;
        }
        if self.is_last() {
            self.state = SendState::Finished;
            return false;
        }
        self.current += 1;
        self.misses = 0;
        true
    }

    /// The DATA of the current block, which was sent last or is to be sent now.
    pub fn data(&self) -> Dgram
        ensures { result ≡ encode (data_packet self.now.file self.now.current) }
    {
        encode_block(&self.blocks, self.current)
    }

    /// Handles ACK `n`: `advance`, and the DATA that is then to be sent.
    pub fn on_ack(&mut self, n: u16) -> Option<Dgram>
        ensures sender { self.new ≡ (sender_ack n self.old).sender }
        ensures sent { result ≡ dgram_of (sender_ack n self.old).out }
        ensures fits { IsSender self.new }
    {
        if self.advance(n) {
            Some(self.data())
        } else {
            None
        }
    }

    /// Handles a time-out: the current DATA is sent again; time-out number `MISSES` in a row sends nothing and ends the
    /// transfer. If the sender has finished or given up, nothing changes and nothing is sent.
    pub fn on_timeout(&mut self) -> Option<Dgram>
        ensures sender { self.new ≡ (sender_timeout self.old).sender }
        ensures sent { result ≡ dgram_of (sender_timeout self.old).out }
        ensures fits { IsSender self.new }
    {
        if self.state != SendState::Running {
            return None;
        }
        if self.misses + 1 == MISSES {
            self.state = SendState::TimedOut;
            return None;
        }
        self.misses += 1;
        Some(self.data())
    }

    /// The state of the sender.
    pub fn state(&self) -> SendState
        ensures { result ≡ self.now.state }
    {
        self.state
    }

    /// The number of the block that it sent last.
    pub fn current(&self) -> u16
        ensures { result ≡ self.now.current }
    {
        self.current
    }

    /// The length in bytes of the file that it sends.
    pub fn file_len(&self) -> u64
        ensures { result ≡ length self.now.file }
    {
        self.blocks.file_len()
    }
}
