//! The receiving end.

ghost use Rattle.std.specs.Prelude.{◌≡◌, ◌≤◌, ◌==◌, ◌+◌, length, Ok, OnErr, IfErr, IfSome, option_copied};
ghost use Rattle.tftp_ends.specs.Ends.{dgram_of, answer_of, verdict_of, is_last_come, is_past, receiver_start, receiver_next, receiver_again, receiver_data, receiver_timeout, receiver_take, receiver_running, IsReceiver};

use crate::limits::{DALLY, MAX_BLOCKS, MAX_FILE, MISSES};
use crate::received::Received;
use crate::recv_fault::RecvFault;
use crate::recv_state::RecvState;
use std::alloc::{Allocator, Global};
use std::marker::Model;
use tftp_packet::{BLOCK_SIZE, Dgram, encode_ack};

/// The end of a transfer that receives a file.
///
/// It acknowledges each block (RFC 1350 section 2), and dallies after the last one (section 6). Only `on_data`
/// allocates.
#[derive(Drop)]
#[derive_where(Debug)]
pub struct Receiver<A: Allocator + Copy = Global> {
    /// How many blocks were received: blocks 1 to this one.
    count: u16,
    /// Their bytes; `None` once the file is taken out.
    file: Option<Received<A>>,
    /// Time-outs in a row without a new block.
    misses: u8,
    state: RecvState,
}

impl<A: Allocator + Copy> Model for Receiver<A> {
    ghost use Rattle.tftp_ends.specs.Ends.{Receiver as Receiving, IsReceiver};

    ghost Value = { Receiving };

    ghost use Rattle.tftp_ends.specs.View.{receiver_of};

    ghost view = { receiver_of };

    ghost invariant = { λ r. IsReceiver (receiver_of r) };
}

impl<A: Allocator + Copy> Receiver<A> {
    /// A receiver that has received nothing. Does not allocate.
    pub fn new(alloc: A) -> Self
        ensures receiver { result ≡ receiver_start }
        ensures fits { IsReceiver result }
    {
        Receiver {
            count: 0,
            file: Some(Received::new(alloc)),
            misses: 0,
            state: RecvState::Running,
        }
    }

    /// Handles a DATA: block `n` with this body, of at most `BLOCK_SIZE` bytes.
    ///
    /// The next block is taken and acknowledged; one of fewer than `BLOCK_SIZE` bytes ends the file. The last block
    /// received is acknowledged again, even after the end of the file. Any other block changes nothing and sends
    /// nothing.
    ///
    /// # Errors
    ///
    /// `Memory` if an allocation was refused, and `TooLong` if the file goes on after block `MAX_BLOCKS`. The receiver
    /// is then unchanged, so the same block may be passed in again.
    pub fn on_data(&mut self, n: u16, body: &[u8]) -> Result<Option<Dgram>, RecvFault>
        requires { length body.now ≤ BLOCK_SIZE }
        ensures receiver { self.new ≡ (receiver_data (verdict_of result) n body.now self.old).receiver }
        ensures sent { result ≡ answer_of (receiver_data (verdict_of result) n body.now self.old).result }
        ensures unchanged { OnErr result (self.new ≡ self.old) }
        // A block without bytes does not allocate.
        ensures grows { IfErr result (λ e. e ≡ RecvFault.Memory → 1 ≤ length body.now) }
        ensures fits { IsReceiver self.new }
    {
        match self.state {
            RecvState::Running => self.on_running(n, body),
            RecvState::Complete => Ok(self.again(n)),
            RecvState::TimedOut | RecvState::Over => Ok(None),
        }
    }

    // Handles a block while some are missing, so that a number follows that of the last one.
    fn on_running(&mut self, n: u16, body: &[u8]) -> Result<Option<Dgram>, RecvFault>
        requires running { self.old.state ≡ RecvState.Running }
        requires short { length body.now ≤ BLOCK_SIZE }
        ensures receiver { self.new ≡ (receiver_running (n == self.old.count + 1) (verdict_of result) n body.now self.old).receiver }
        ensures sent { result ≡ answer_of (receiver_running (n == self.old.count + 1) (verdict_of result) n body.now self.old).result }
        ensures grows { IfErr result (λ e. e ≡ RecvFault.Memory → 1 ≤ length body.now) }
    {
        if n == self.count + 1 {
            self.on_next(n, body)
        } else {
            Ok(self.again(n))
        }
    }

    // The ACK of the last block received, if `n` is its number.
    fn again(&self, n: u16) -> Option<Dgram>
        ensures { Ok result ≡ answer_of (receiver_again (is_last_come n self.now) self.now).result }
    {
        if n > 0 && n == self.count {
            Some(encode_ack(n))
        } else {
            None
        }
    }

    // Takes the next block.
    fn on_next(&mut self, n: u16, body: &[u8]) -> Result<Option<Dgram>, RecvFault>
        requires running { self.old.state ≡ RecvState.Running }
        requires next { n ≡ self.old.count + 1 }
        requires short { length body.now ≤ BLOCK_SIZE }
        ensures receiver { self.new ≡ (receiver_next (is_past n body.now) (verdict_of result) body.now self.old).receiver }
        ensures sent { result ≡ answer_of (receiver_next (is_past n body.now) (verdict_of result) body.now self.old).result }
        ensures grows { IfErr result (λ e. e ≡ RecvFault.Memory → 1 ≤ length body.now) }
    {
        let full = body.len() == BLOCK_SIZE;
        if full && n == MAX_BLOCKS {
            return Err(RecvFault::TooLong);
        }
        let Some(file) = &mut self.file else {
            unreachable!();
        };
        file.push_block(body)?;
        self.count = n;
        self.misses = 0;
        if !full {
            self.state = RecvState::Complete;
        }
        Ok(Some(encode_ack(n)))
    }

    /// How many blocks it has received.
    pub fn count(&self) -> u16
        ensures { result ≡ self.now.count }
    {
        self.count
    }

    /// Handles a time-out: while blocks are missing, the last ACK is sent again, ACK 0 before the first block; time-out
    /// number `MISSES` in a row sends nothing and ends the transfer. After the last block nothing is sent, and the
    /// receiver is over at time-out number `DALLY`. After either end nothing changes any more.
    pub fn on_timeout(&mut self) -> Option<Dgram>
        ensures receiver { self.new ≡ (receiver_timeout self.old).receiver }
        ensures sent { result ≡ dgram_of (receiver_timeout self.old).out }
        ensures fits { IsReceiver self.new }
    {
        match self.state {
            RecvState::Running => {
                if self.misses + 1 == MISSES {
                    self.state = RecvState::TimedOut;
                    return None;
                }
                self.misses += 1;
                Some(encode_ack(self.count))
            }
            RecvState::Complete => {
                if self.misses + 1 == DALLY {
                    self.state = RecvState::Over;
                } else {
                    self.misses += 1;
                }
                None
            }
            RecvState::TimedOut | RecvState::Over => None,
        }
    }

    /// The state of the receiver.
    pub fn state(&self) -> RecvState
        ensures { result ≡ self.now.state }
    {
        self.state
    }

    /// Borrows the file, if all of it has arrived and it was not taken out.
    pub fn file(&self) -> Option<&Received<A>>
        ensures { option_copied result ≡ (receiver_take self.now).file }
    {
        match self.state {
            RecvState::Complete | RecvState::Over => self.file.as_ref(),
            RecvState::Running | RecvState::TimedOut => None,
        }
    }

    /// Takes the file out, once: if all of it has arrived and it was not taken out before. Nothing else changes, so the
    /// last block is still acknowledged if it arrives again.
    pub fn take_file(&mut self) -> Option<Received<A>>
        ensures receiver { self.new ≡ (receiver_take self.old).receiver }
        ensures file { result ≡ (receiver_take self.old).file }
        ensures fits { IsReceiver self.new }
        // It is no longer than a file may be.
        ensures size { IfSome result (λ f. length f ≤ MAX_FILE) }
    {
        match self.state {
            RecvState::Complete | RecvState::Over => self.file.take(),
            RecvState::Running | RecvState::TimedOut => None,
        }
    }
}
