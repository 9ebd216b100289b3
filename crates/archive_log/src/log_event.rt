//! What happened at a server, as its operator may want to know it.

ghost use Rattle.std.specs.Prelude.{◌≡◌};
ghost use Rattle.archive_log.specs.Lines.{message_of, level_of, taken_level, failed_level};
ghost use Rattle.archive_log.specs.Budget.{is_bounded};

use crate::upload::Upload;
use archive_history::HistoryFault;
use archive_server::DropCause;
use archive_table::FailureCause;
use log::Level;
use tftp_packet::{Endpoint, Refusal};
use tws_file::{FileFault, Ruleset};

/// What happened at a server, as its operator may want to know it.
#[derive(Clone, Copy, Debug)]
pub enum LogEvent<'a> {
    /// It started: the address and port that it listens at, how many solutions its collections have, and its folder, if
    /// it has one.
    Started {
        at: Endpoint,
        lynx: u64,
        ms: u64,
        folder: Option<&'a str>,
    },
    /// A request was refused.
    Refused {
        peer: Endpoint,
        why: Refusal,
    },
    /// A request was dropped.
    Dropped {
        peer: Endpoint,
        why: DropCause,
    },
    /// So many lines of refused and dropped requests were left out.
    LeftOut {
        count: u64,
    },
    /// A put was taken, `millis` milliseconds after its request.
    Taken {
        upload: Upload,
        millis: u64,
    },
    /// A put failed, of which the server had received the blocks up to this one.
    PutFailed {
        peer: Endpoint,
        block: u16,
        why: FailureCause,
    },
    /// A get failed, of which this is the last block that was sent.
    GetFailed {
        peer: Endpoint,
        ruleset: Ruleset,
        block: u16,
        why: FailureCause,
    },
    /// A get was finished: its peer acknowledged the last block, `millis` milliseconds after the request.
    GetFinished {
        peer: Endpoint,
        ruleset: Ruleset,
        bytes: u64,
        millis: u64,
    },
    /// A collection of `bytes` bytes was not kept; `why` is in the words of the system or of a limit.
    KeepFailed {
        ruleset: Ruleset,
        bytes: u64,
        why: &'a str,
    },
    /// The bytes of a file that was taken are in the history from that day: no second copy was added.
    AlreadyRecorded {
        peer: Endpoint,
    },
    /// A file that was taken is not in the history; `cause` is in the words of the system, if a call of it failed.
    NotRecorded {
        peer: Endpoint,
        why: HistoryFault,
        cause: Option<&'a str>,
    },
    /// The server stopped: how many files it took, and how many gets were finished.
    Stopped {
        taken: u64,
        served: u64,
    },
}

impl LogEvent<'_> {
    /// What happened, in words.
    pub fn message(&self) -> &'static str
        ensures { result.now ≡ message_of self.now }
    {
        match self {
            LogEvent::Started { .. } => "started",
            LogEvent::Refused { .. } => "request refused",
            LogEvent::Dropped { .. } => "request dropped",
            LogEvent::LeftOut { .. } => "request lines left out",
            LogEvent::Taken { .. } => "put taken",
            LogEvent::PutFailed { .. } => "put failed",
            LogEvent::GetFailed { .. } => "get failed",
            LogEvent::GetFinished { .. } => "get finished",
            LogEvent::KeepFailed { .. } => "keep failed",
            LogEvent::AlreadyRecorded { .. } => "already recorded",
            LogEvent::NotRecorded { .. } => "not recorded",
            LogEvent::Stopped { .. } => "stopped",
        }
    }

    /// Whether a log has only so many of these lines in a second: those of a request that was refused or dropped.
    pub(crate) fn is_bounded(&self) -> bool
        ensures { result ≡ is_bounded self.now }
    {
        match self {
            LogEvent::Refused { .. } => true,
            LogEvent::Dropped { .. } => true,
            _ => false,
        }
    }

    /// The level of its line: `Error` if a collection was not kept or a file is not in the history; `Warn` if a request was
    /// refused or dropped, lines of such requests were left out, a transfer failed for another reason, or a file that was taken
    /// is not known to be a solution file; `Info` otherwise.
    pub fn level(&self) -> Level
        ensures { result ≡ level_of self.now }
    {
        match self {
            LogEvent::Started { .. } | LogEvent::GetFinished { .. } | LogEvent::Stopped { .. } =>
                Level::Info,
            LogEvent::Taken { upload, .. } => taken_level(upload.fault),
            LogEvent::Refused { .. } | LogEvent::Dropped { .. } | LogEvent::GetFailed { .. } =>
                Level::Warn,
            LogEvent::PutFailed { why, .. } => failed_level(*why),
            LogEvent::LeftOut { .. } => Level::Warn,
            LogEvent::KeepFailed { .. } => Level::Error,
            LogEvent::AlreadyRecorded { .. } => Level::Info,
            LogEvent::NotRecorded { .. } => Level::Error,
        }
    }
}

// Whether a file that was taken is readable.
fn taken_level(fault: Option<FileFault>) -> Level
    ensures { result ≡ taken_level fault }
{
    match fault {
        None => Level::Info,
        Some(_) => Level::Warn,
    }
}

fn failed_level(why: FailureCause) -> Level
    ensures { result ≡ failed_level why }
{
    match why {
        FailureCause::Refused(Refusal::NotKept) => Level::Error,
        _ => Level::Warn,
    }
}
