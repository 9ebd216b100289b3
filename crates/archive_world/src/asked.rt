//! What a transfer was opened for.

use tws_file::Ruleset;

/// What a transfer was opened for.
#[derive(Clone, Copy, Debug, PartialEq, Eq)]
pub enum Asked {
    /// To write a file.
    Write,
    /// To read the collection of this ruleset.
    Read(Ruleset),
}
