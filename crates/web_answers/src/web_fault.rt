//! Why there is no answer.

ghost use Rattle.std.specs.Prelude.{◌≡◌, ℕ, List, Some};
ghost use Rattle.tws_file.specs.Fault.{FailsWith};
ghost use Rattle.web_answers.specs.Answers.{Fails, FailsAlone, words_of};
ghost use Rattle.web_answers.specs.declared.web_fault.WebFault.TheVariants.{Memory};

use byte_output::OutFault;
use std::alloc::{AllocError, AllocFailed};
use std::fmt;
use tws_file::{FileFault, InWords};

/// Why there is no answer.
#[derive(Clone, Copy, Debug, PartialEq, Eq)]
pub enum WebFault {
    /// The first file is not a solution file.
    First(FileFault),
    /// The second file is not a solution file.
    Second(FileFault),
    /// The files are of different rulesets.
    Rulesets,
    /// Out of memory.
    Memory,
}

impl WebFault {
    // Why the first file was not read.
    pub(crate) fn first(fault: FileFault) -> WebFault
        ensures alone { (bytes : List ℕ) → FailsWith bytes fault → FailsAlone bytes result }
        ensures both { (first second : List ℕ) → FailsWith first fault → Fails first second result }
    {
        if fault == FileFault::Memory {
            return WebFault::Memory;
        }
        WebFault::First(fault)
    }

    // Why the second file was not read.
    pub(crate) fn second(fault: FileFault) -> WebFault
        ensures { (first second : List ℕ) → FailsWith second fault → Fails first second result }
    {
        if fault == FileFault::Memory {
            return WebFault::Memory;
        }
        WebFault::Second(fault)
    }
}

impl fmt::Display for WebFault {
    ghost output = { λ fault. Some (words_of fault) };

    fn fmt<W: fmt::Write>(&self, f: &mut fmt::Formatter<W>) -> fmt::Result {
        match self {
            WebFault::First(fault) => write!(f, "first file: {}", InWords(*fault)),
            WebFault::Second(fault) => write!(f, "second file: {}", InWords(*fault)),
            WebFault::Rulesets => write!(f, "different rulesets"),
            WebFault::Memory => write!(f, "out of memory"),
        }
    }
}

impl From<AllocError> for WebFault {
    ghost from_gives = { λ _ e. e ≡ Memory };

    fn from(_error: AllocError) -> Self {
        WebFault::Memory
    }
}

impl<T: Drop> From<AllocFailed<T>> for WebFault {
    ghost from_gives = { λ _ e. e ≡ Memory };

    fn from(_error: AllocFailed<T>) -> Self {
        WebFault::Memory
    }
}

impl From<OutFault> for WebFault {
    ghost from_gives = { λ _ e. e ≡ Memory };

    // An answer is written into memory.
    fn from(_fault: OutFault) -> Self {
        WebFault::Memory
    }
}
