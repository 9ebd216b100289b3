//! What a step of the table did.

use tftp_packet::Refusal;
use tws_file::{FileFault, Ruleset};

/// Why a transfer failed at the server.
#[derive(Clone, Copy, Debug, PartialEq, Eq)]
pub enum FailureCause {
    /// The server ended it with this ERROR.
    Refused(Refusal),
    /// Its peer ended it with an ERROR.
    PeerError,
    /// Its peer was silent for too long.
    TimedOut,
}

/// What a file that was taken did to the collection of its ruleset.
#[derive(Clone, Copy, Debug, PartialEq, Eq)]
pub struct Merged {
    /// Why the file is not a solution file; `None` if it is one.
    pub fault: Option<FileFault>,
    /// How many of its solutions were better than what the collection had for their key, or the first there, when they
    /// were merged. A key that changed twice counts twice.
    pub better: u64,
}

/// What a step did. An answer to a stranger, a repeat, and the end of a transfer that has its whole file are `Nothing`.
#[derive(Clone, Copy, Debug, PartialEq, Eq)]
pub enum StepEvent {
    /// None of the following.
    Nothing,
    /// A transfer was opened in which the server receives a file.
    OpenedPut,
    /// A transfer was opened in which the server sends the collection of this ruleset.
    OpenedGet(Ruleset),
    /// A request was refused with this ERROR.
    Refused(Refusal),
    /// A file was taken.
    Taken(Merged),
    /// The last block of a collection was acknowledged.
    Finished {
        /// The length in bytes of the collection.
        bytes: u64,
    },
    /// A transfer failed.
    Failed {
        /// The last block that the server received, or sent.
        block: u16,
        /// Why it failed.
        why: FailureCause,
    },
}
