//! A solution file that is to be sent.

use tws_file::Key;

/// A solution file that was read whole.
#[derive(Drop)]
pub(crate) struct WholeFile {
    /// Its text.
    pub(crate) bytes: Vec<u8>,
    /// The level of its first solution that stops Tile World, if one does.
    pub(crate) stopping: Option<Key>,
}
