//! Why a file is unreadable, in words.

ghost use Rattle.std.specs.Prelude.{Some};
ghost use Rattle.tws_file.specs.Words.{fault_words};

use crate::file_fault::FileFault;
use std::fmt;
use std::fmt::{Display, Formatter, Write};

/// A fault of a file in words.
#[derive(Clone, Copy, Debug)]
pub struct InWords(pub FileFault);

impl Display for InWords {
    ghost output = { λ words. Some (fault_words words.0) };

    fn fmt<W: Write>(&self, f: &mut Formatter<W>) -> fmt::Result {
        match self.0 {
            FileFault::ShortHeader(len) => {
                write!(f, "the file ends inside its header, after {len} bytes")
            }
            FileFault::BadSignature => {
                write!(f, "the file does not begin with the bytes 35 33 9B 99")
            }
            FileFault::BadRuleset(byte) => write!(
                f,
                "byte 4 is {byte}, which is not the code of a ruleset"
            ),
            FileFault::ShortRecord(at) => {
                write!(f, "the file ends inside the record at byte {at}")
            }
            FileFault::BadSize(at) => write!(f, "no record has the size at byte {at}"),
            FileFault::MoveCut(at) => write!(f, "the moves end inside the move at byte {at}"),
            FileFault::Memory => write!(f, "out of memory"),
        }
    }
}
