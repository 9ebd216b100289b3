//! Solution files.

use crate::bytes::Bytes;
use crate::records::Records;
use crate::ruleset::Ruleset;
use std::alloc::{Allocator, Global};
use std::marker::Model;

/// A solution file.
///
/// Each value has a text: there are at most 255 further header bytes, and each record is one that a file can have.
#[derive(Drop)]
#[derive_where(Debug)]
pub struct TwsFile<A: Allocator = Global> {
    /// Byte 4: the rules under which all levels of the file were played.
    pub ruleset: Ruleset,
    /// Bytes 5 and 6. Tile World keeps the number of the current level there.
    pub word: [u8; 2],
    /// The further header bytes, as many as byte 7 says.
    pub extra: Bytes<A>,
    /// What follows the header, up to the end of the file.
    pub records: Records<A>,
}

impl<A: Allocator> Model for TwsFile<A> {
    ghost use Rattle.tws_file.specs.Text.{File, IsFile};

    ghost Value = { File };

    ghost use Rattle.tws_file.specs.TwsFile.{file_of};

    ghost view = { file_of };

    ghost invariant = { λ file. IsFile (file_of file) };
}
