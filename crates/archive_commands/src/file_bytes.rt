//! The bytes of an input that is to be sent.

ghost use Rattle.std.specs.Prelude.{[]};
ghost use Rattle.archive_commands.specs.Put.{HasBytes, RefusesBytes};

use crate::stopping::first_stopping;
use archive_client::Cause;
use command_line::{InputSink, ToolFault};
use std::alloc::Global;
use tftp_ends::MAX_FILE;
use tws_file::Key;
use tws_reader::PartReader;

/// The bytes of an input, at most as many as a file may have, which are read as they come. It refuses a piece with which
/// they have a fault that lasts, or are too many, or with `Memory`.
#[derive(Drop)]
pub(crate) struct FileBytes {
    pub(crate) bytes: Vec<u8>,
    pub(crate) reader: PartReader,
    /// The level of the first solution so far that stops Tile World, if one does.
    pub(crate) stopping: Option<Key>,
}

impl FileBytes {
    /// No bytes. Does not allocate.
    pub(crate) fn new(alloc: Global) -> Self
        ensures { HasBytes result.bytes.items result.reader result.stopping [] }
    {
        FileBytes {
            bytes: Vec::new(alloc),
            reader: PartReader::new(alloc),
            stopping: None,
        }
    }
}

impl InputSink for FileBytes {
    ghost has_taken = { λ sink bytes. HasBytes sink.bytes.items sink.reader sink.stopping bytes };

    ghost refuses = { RefusesBytes };

    fn take(&mut self, piece: &[u8]) -> Result<(), ToolFault> {
        match self.reader.push(piece) {
            Ok(records) => self.stopping = first_stopping(self.stopping, records.as_slice()),
            Err(fault) => return Err(ToolFault::of_input(0, fault)),
        }
        self.bytes.extend_from_slice(piece)?;
        if self.bytes.len() as u64 > MAX_FILE {
            return Err(ToolFault::Transfer(Cause::TooLong));
        }
        Ok(())
    }
}
