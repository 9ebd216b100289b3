//! What is known of a file, by which another one in its place is found out.

use std::fs::Metadata;
use std::os::unix::fs::MetadataExt;

/// Where a file or a folder is: no other one has this place as long as it is there.
#[derive(Clone, Copy, Debug, PartialEq, Eq)]
pub(crate) struct Place {
    device: u64,
    inode: u64,
}

impl Place {
    /// The place of the file or folder of which the system knows this.
    pub(crate) fn of(metadata: &Metadata) -> Place {
        Place {
            device: metadata.dev(),
            inode: metadata.ino(),
        }
    }
}

/// A file as it was last written. Who may read it is not part of that.
#[derive(Clone, Copy, Debug, PartialEq, Eq)]
pub(crate) struct Written {
    place: Place,
    length: u64,
    seconds: i64,
    nanoseconds: i64,
}

/// What is known of a file.
#[derive(Clone, Copy, Debug, PartialEq, Eq)]
pub(crate) enum KnownFile {
    /// Nothing yet.
    Unknown,
    /// There is none of its name.
    Absent,
    /// There is one, as it was written then.
    Present(Written),
}

impl KnownFile {
    /// What is known of a file of which the system knows this, if there is one.
    pub(crate) fn of(metadata: Option<Metadata>) -> KnownFile {
        match metadata {
            None => KnownFile::Absent,
            Some(metadata) => KnownFile::Present(Written {
                place: Place::of(&metadata),
                length: metadata.len(),
                seconds: metadata.mtime(),
                nanoseconds: metadata.mtime_nsec(),
            }),
        }
    }
}
