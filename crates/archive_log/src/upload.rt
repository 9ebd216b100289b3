//! What a log says of a file that was taken.

ghost use Rattle.std.specs.Prelude.{◌≡◌};
ghost use Rattle.archive_log.specs.Events.{upload_of};

use archive_table::{Merged, Taken};
use std::alloc::Allocator;
use tftp_packet::Endpoint;
use tws_file::{FileFault, Ruleset};

/// A file that a server took.
#[derive(Clone, Copy, Debug, PartialEq, Eq)]
pub struct Upload {
    /// The endpoint that it came from.
    pub peer: Endpoint,
    /// Its length in bytes.
    pub bytes: u64,
    /// The ruleset that its fifth byte says, if it is the code of one.
    pub ruleset: Option<Ruleset>,
    /// Why it is not a solution file; `None` if it is one.
    pub fault: Option<FileFault>,
    /// How many of its solutions were better than what was there for their key, or the first there, when they were merged.
    pub better: u64,
}

impl Upload {
    /// Describes a file that was taken, and what it did to a collection.
    pub fn of<A: Allocator>(taken: &Taken<A>, merged: Merged) -> Self
        ensures { result ≡ upload_of taken.now merged }
    {
        Upload {
            peer: taken.peer,
            bytes: taken.file.len(),
            ruleset: taken.ruleset(),
            fault: merged.fault,
            better: merged.better,
        }
    }
}
