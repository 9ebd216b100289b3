//! Why a file was not added to the history.

ghost use Rattle.std.specs.Prelude.{Some};
ghost use Rattle.archive_history.specs.HistoryFault.{history_fault_text};

use std::alloc::AllocError;
use std::error::Error;
use std::fmt;

/// Why a file is not in the history.
#[derive(Clone, Copy, Debug, PartialEq, Eq)]
pub enum HistoryFault {
    /// The folder of its day could not be made.
    Day,
    /// Every name that it could have is in use.
    NoFreeName,
    /// The folder did not say whether a name is in use.
    LookUp,
    /// No file could be made.
    Create,
    /// The file could not be written.
    Write,
    /// It could not be synced.
    Sync,
    /// It could not be given its name.
    Rename,
    /// It is there, but a crash may lose it: its name may not be on the disk.
    SyncFolder,
    /// Out of memory for its name.
    Memory,
}

/// The fault in words.
impl fmt::Display for HistoryFault {
    ghost output = { λ fault. Some (history_fault_text fault) };

    fn fmt<W: fmt::Write>(&self, f: &mut fmt::Formatter<W>) -> fmt::Result {
        f.write_str(match self {
            HistoryFault::Day => "no folder for the day",
            HistoryFault::NoFreeName => "no free name",
            HistoryFault::LookUp => "not looked up",
            HistoryFault::Create => "not created",
            HistoryFault::Write => "not written",
            HistoryFault::Sync => "not synced",
            HistoryFault::Rename => "not renamed",
            HistoryFault::SyncFolder => "folder not synced",
            HistoryFault::Memory => "out of memory",
        })
    }
}

impl From<AllocError> for HistoryFault {
    ghost use Rattle.std.specs.Prelude.{◌≡◌};
    ghost use Rattle.archive_history.specs.declared.history_fault.HistoryFault.TheVariants.{Memory};

    ghost from_gives = { λ _ e. e ≡ Memory };

    fn from(_error: AllocError) -> Self {
        HistoryFault::Memory
    }
}

impl Error for HistoryFault {}
