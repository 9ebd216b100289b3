//! A reader of solution files, into which an input is read.

ghost use Rattle.std.specs.Prelude.{◌≡◌};
ghost use Rattle.tws_reader.specs.Reader.{HasTaken};
ghost use Rattle.command_line.specs.declared.tool_fault.ToolFault.TheVariants.{Memory};

use command_line::{InputSink, ToolFault};
use tws_file::FileFault;
use tws_reader::Reader;

/// A reader that takes the bytes of an input. It refuses a piece only with `Memory`, and keeps any other fault of the
/// bytes, so that the input is read to its end.
#[derive(Drop)]
pub(crate) struct ReaderSink {
    pub(crate) reader: Reader,
}

impl InputSink for ReaderSink {
    ghost has_taken = { λ sink bytes. HasTaken sink.reader bytes };

    ghost refuses = { λ _ e. e ≡ Memory };

    fn take(&mut self, piece: &[u8]) -> Result<(), ToolFault> {
        if self.reader.push(piece) == Err(FileFault::Memory) {
            return Err(ToolFault::Memory);
        }
        Ok(())
    }
}
