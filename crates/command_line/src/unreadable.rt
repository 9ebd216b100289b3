//! Why an input is no solution file, by the name of the fault.

ghost use Rattle.std.specs.Prelude.{Some};
ghost use Rattle.command_line.specs.Printing.{unreadable_text};

use std::fmt;
use std::fmt::{Display, Formatter, Write};
use tws_file::FileFault;

/// A fault of an input, by its name.
#[derive(Clone, Copy, Debug)]
pub(crate) struct Unreadable(pub(crate) FileFault);

impl Display for Unreadable {
    ghost output = { λ input. Some (unreadable_text input.0) };

    fn fmt<W: Write>(&self, f: &mut Formatter<W>) -> fmt::Result {
        match self.0 {
            FileFault::ShortHeader(len) => write!(f, "unreadable: ShortHeader({len})"),
            FileFault::BadSignature => write!(f, "unreadable: BadSignature"),
            FileFault::BadRuleset(byte) => write!(f, "unreadable: BadRuleset({byte})"),
            FileFault::ShortRecord(at) => write!(f, "unreadable: ShortRecord({at})"),
            FileFault::BadSize(at) => write!(f, "unreadable: BadSize({at})"),
            FileFault::MoveCut(at) => write!(f, "unreadable: MoveCut({at})"),
            FileFault::Memory => write!(f, "unreadable: Memory"),
        }
    }
}
