//! Why a call of a folder failed, and why a file was not published.

use thiserror::Error;

/// Why a call of a folder failed.
#[derive(Clone, Copy, Debug, PartialEq, Eq, Error)]
pub enum CallFault {
    /// The device failed.
    #[error("Device")]
    Device,
    /// Out of memory.
    #[error("Memory")]
    Memory,
}

/// Why a file was not renamed.
#[derive(Clone, Copy, Debug, PartialEq, Eq, Error)]
pub enum RenameFault {
    /// There is no file of this name: nothing changed.
    #[error("Gone")]
    Gone,
    /// Any other cause: the file may have its new name.
    #[error("Unknown")]
    Unknown,
}

/// A call after which the new file does not have its name.
#[derive(Clone, Copy, Debug, PartialEq, Eq)]
pub enum FolderCall {
    /// An old draft was to be removed.
    Remove,
    /// The draft was to be created.
    Create,
    /// It was to be written.
    Write,
    /// It was to be synced.
    Sync,
    /// It was to be renamed, and was gone.
    Rename,
}

/// A call that failed, and why.
#[derive(Clone, Copy, Debug, PartialEq, Eq)]
pub struct CallFailed {
    /// The call.
    pub call: FolderCall,
    /// Why it failed.
    pub fault: CallFault,
}

/// Why a file was not published.
#[derive(Clone, Copy, Debug, PartialEq, Eq)]
pub enum PublishFault {
    /// The folder has what it had before.
    NotKept(CallFailed),
    /// The rename failed, of a draft that was there: the folder may have what it had before, or the new file.
    Rename,
    /// The folder was not synced: it has the new file, but after a crash it may have what it had before.
    SyncFolder,
}
