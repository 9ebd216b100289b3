//! What is counted of a transfer.

ghost use Rattle.std.specs.Prelude.{◌≡◌, ◌-◌, max, true, is_some};
ghost use Rattle.tftp_packet.specs.Decode.{decode_bytes};
ghost use Rattle.archive_progress.specs.Tally.{acknowledged, beginning, due_at, is_due, updated, may_draw, new_tally, progress_at};

use crate::limits::{DELAY, PAUSE};
use crate::progress::Progress;
use tftp_packet::{Packet, decode};

/// What is counted of a transfer, and what is known of its line. Times are those of one clock, in milliseconds.
#[derive(Clone, Copy)]
pub(crate) struct Tally {
    /// How many bytes the file has, if that is known.
    pub length: Option<u64>,
    /// How many blocks were acknowledged.
    pub blocks: u16,
    /// When the transfer began: at the first update.
    pub began: Option<u64>,
    /// When the line was drawn last, if it was.
    pub drawn: Option<u64>,
    /// Whether the transfer has ended. Then the line is not drawn any more.
    pub ended: bool,
}

// How many blocks were acknowledged, as a client knows that sends a datagram of these bytes.
fn acknowledged(bytes: &[u8]) -> u16
    ensures { result ≡ acknowledged (decode_bytes bytes.now) }
{
    match decode(bytes) {
        Ok(Packet::Read { .. }) => 0,
        Ok(Packet::Write { .. }) => 0,
        Ok(Packet::Data { block, .. }) => block.saturating_sub(1),
        Ok(Packet::Ack { block }) => block,
        Ok(Packet::Error { .. }) => 0,
        Err(_) => 0,
    }
}

// Whether the line was drawn long enough ago, or never.
fn may_draw(time: u64, drawn: Option<u64>) -> bool
    ensures { result ≡ may_draw time drawn }
{
    match drawn {
        Some(moment) => time.saturating_sub(moment) >= PAUSE,
        None => true,
    }
}

impl Tally {
    /// The tally of a transfer that has not begun.
    pub(crate) fn new() -> Self
        ensures { result ≡ new_tally }
    {
        Tally {
            length: None,
            blocks: 0,
            began: None,
            drawn: None,
            ended: false,
        }
    }

    /// The next transfer begins, of a file of this length in bytes if that is known. A line that was drawn is to be erased
    /// all the same.
    pub(crate) fn begin(&mut self, length: Option<u64>)
        ensures { self.new ≡ record new_tally { length = length; drawn = self.old.drawn } }
    {
        let drawn = self.drawn;
        *self = Tally::new();
        self.length = length;
        self.drawn = drawn;
    }

    /// Counts what is known from a datagram of these bytes that the client sends: with a DATA the blocks before it were
    /// acknowledged, and with an ACK those up to it are. The count never falls.
    pub(crate) fn count(&mut self, bytes: &[u8])
        ensures { self.new ≡ record self.old { blocks = max self.old.blocks (acknowledged (decode_bytes bytes.now)) } }
    {
        self.blocks = self.blocks.max(acknowledged(bytes));
    }

    // When the transfer began, if it is updated at this time.
    fn beginning(&self, time: u64) -> u64
        ensures { result ≡ beginning time self.now }
    {
        match self.began {
            Some(began) => began,
            None => time,
        }
    }

    // Whether the line is to be drawn at this time.
    fn is_due(&self, time: u64) -> bool
        ensures { result ≡ is_due time self.now }
    {
        let millis = time.saturating_sub(self.beginning(time));
        !self.ended && millis >= DELAY && may_draw(time, self.drawn)
    }

    /// How far the transfer has come at this time.
    pub(crate) fn progress_at(&self, time: u64) -> Progress
        ensures { result ≡ progress_at time self.now }
    {
        Progress {
            blocks: self.blocks,
            length: self.length,
            millis: time.saturating_sub(self.beginning(time)),
        }
    }

    /// What the line has to show at this time, if it is to be drawn: once the transfer has run for `DELAY`, at most once
    /// in `PAUSE`, and not after its end. The transfer begins at the first update.
    pub(crate) fn update(&mut self, time: u64) -> Option<Progress>
        ensures due { result ≡ due_at time self.old }
        ensures noted { self.new ≡ updated time self.old }
    {
        let progress = self.progress_at(time);
        let is_due = self.is_due(time);
        self.began = Some(self.beginning(time));
        if is_due {
            self.drawn = Some(time);
            Some(progress)
        } else {
            None
        }
    }

    /// The transfer has ended. Returns whether its line was drawn, and so is to be erased: once, since it is not drawn
    /// any more.
    pub(crate) fn finish(&mut self) -> bool
        ensures drawn { result ≡ is_some self.old.drawn }
        ensures ended { self.new ≡ record self.old { drawn = None; ended = true } }
    {
        let is_drawn = self.drawn.is_some();
        self.drawn = None;
        self.ended = true;
        is_drawn
    }
}
