//! What a log knows of a live transfer.

ghost use Rattle.std.specs.Prelude.{◌≡◌};
ghost use Rattle.archive_log.specs.Events.{failed_event, finished_event};

use crate::log_event::LogEvent;
use archive_table::FailureCause;
use tftp_packet::Endpoint;
use tws_file::Ruleset;

/// What a transfer does.
#[derive(Clone, Copy, Debug, PartialEq, Eq)]
pub enum TransferKind {
    /// The server receives a file.
    Put,
    /// The server sends the collection of this ruleset.
    Get(Ruleset),
}

/// What a log knows of a live transfer.
#[derive(Clone, Copy, Debug, PartialEq, Eq)]
pub struct LoggedTransfer {
    /// Its port.
    pub port: u16,
    /// The endpoint of its peer.
    pub peer: Endpoint,
    /// When it was opened, in milliseconds of the monotonic clock.
    pub began: u64,
    /// What it does.
    pub kind: TransferKind,
}

// A transfer in an unused place.
impl Default for LoggedTransfer {
    fn default() -> Self {
        LoggedTransfer {
            port: 0,
            peer: Endpoint { host: 0, port: 0 },
            began: 0,
            kind: TransferKind::Put,
        }
    }
}

impl LoggedTransfer {
    /// The event that it was finished with so many bytes; none if it is a put.
    pub(crate) fn finished(&self, now: u64, bytes: u64) -> Option<LogEvent<'static>>
        ensures { result ≡ finished_event now bytes self.now }
    {
        match self.kind {
            TransferKind::Put => None,
            TransferKind::Get(ruleset) => Some(LogEvent::GetFinished {
                peer: self.peer,
                ruleset,
                bytes,
                millis: now.saturating_sub(self.began),
            }),
        }
    }

    /// The event that it failed.
    pub(crate) fn failed(&self, block: u16, why: FailureCause) -> LogEvent<'static>
        ensures { result ≡ failed_event block why self.now }
    {
        match self.kind {
            TransferKind::Put => LogEvent::PutFailed {
                peer: self.peer,
                block,
                why,
            },
            TransferKind::Get(ruleset) => LogEvent::GetFailed {
                peer: self.peer,
                ruleset,
                block,
                why,
            },
        }
    }
}
