//! Why kept collections were not loaded.

use crate::keep_fault::KeepFault;
use thiserror::Error;
use tws_file::FileFault;

/// Why the kept collections could not be loaded.
#[derive(Clone, Copy, Debug, PartialEq, Eq, Error)]
pub enum LoadFault {
    /// The keeper failed.
    #[error("Keep({0})")]
    Keep(KeepFault),
    /// What was kept is not a solution file.
    #[error("Unreadable({0})")]
    Unreadable(FileFault),
    /// What was kept is a file of the other ruleset.
    #[error("WrongRuleset")]
    WrongRuleset,
    /// Out of memory.
    #[error("Memory")]
    Memory,
}
