//! Why a command failed.

ghost use Rattle.std.specs.Prelude.{◌≡◌, Some};
ghost use Rattle.command_line.specs.Faults.{written_fault, input_fault, status_of};
ghost use Rattle.command_line.specs.Printing.{fault_text};
ghost use Rattle.command_line.specs.declared.tool_fault.ToolFault.TheVariants.{Memory};

use crate::status::{FAILED, NOT_TRANSFERRED, UNREADABLE};
use crate::unreadable::Unreadable as UnreadableInput;
use std::alloc::{AllocError, AllocFailed};
use std::fmt;
use tftp_packet::Cause;
use tws_file::{FileFault, OutFault};

/// Why a command failed.
#[derive(Clone, Copy, Debug, PartialEq, Eq)]
pub enum ToolFault {
    /// A reader failed, or did not end.
    Read,
    /// The writer failed.
    Write,
    /// An input is not a solution file.
    Unreadable {
        /// Which input, counted from 0.
        index: usize,
        fault: FileFault,
    },
    /// Out of memory.
    Memory,
    /// A port could not be opened.
    Socket,
    /// A transfer failed.
    Transfer(Cause),
}

impl ToolFault {
    /// The fault of a command that could not read the input with this index. Running out of memory is not the file's
    /// fault.
    pub fn of_input(index: usize, fault: FileFault) -> Self
        ensures { result ≡ input_fault index fault }
    {
        match fault {
            FileFault::Memory => ToolFault::Memory,
            fault => ToolFault::Unreadable { index, fault },
        }
    }

    /// The exit status of a program that failed with this fault.
    pub fn status(self) -> u8
        ensures { result ≡ status_of self }
    {
        match self {
            ToolFault::Read | ToolFault::Write | ToolFault::Memory | ToolFault::Socket => FAILED,
            ToolFault::Unreadable { .. } => UNREADABLE,
            ToolFault::Transfer(_) => NOT_TRANSFERRED,
        }
    }
}

impl fmt::Display for ToolFault {
    ghost output = { λ fault. Some (fault_text fault) };

    fn fmt<W: fmt::Write>(&self, f: &mut fmt::Formatter<W>) -> fmt::Result {
        match *self {
            ToolFault::Read => write!(f, "read fault"),
            ToolFault::Write => write!(f, "write fault"),
            ToolFault::Unreadable { index, fault } => {
                write!(f, "input {index}: {}", UnreadableInput(fault))
            }
            ToolFault::Memory => write!(f, "out of memory"),
            ToolFault::Socket => write!(f, "socket fault"),
            ToolFault::Transfer(Cause::Refused(code)) => {
                write!(f, "transfer failed: refused {code}")
            }
            ToolFault::Transfer(Cause::TimedOut) => write!(f, "transfer failed: timed out"),
            ToolFault::Transfer(Cause::TooLong) => write!(f, "transfer failed: too long"),
            ToolFault::Transfer(Cause::Memory) => write!(f, "transfer failed: out of memory"),
        }
    }
}

impl From<AllocError> for ToolFault {
    ghost from_gives = { λ _ e. e ≡ Memory };

    fn from(_error: AllocError) -> Self {
        ToolFault::Memory
    }
}

impl<T: Drop> From<AllocFailed<T>> for ToolFault {
    ghost from_gives = { λ _ e. e ≡ Memory };

    fn from(_error: AllocFailed<T>) -> Self {
        ToolFault::Memory
    }
}

impl From<OutFault> for ToolFault {
    ghost from_gives = { λ fault e. e ≡ written_fault fault };

    fn from(fault: OutFault) -> Self {
        match fault {
            OutFault::Io => ToolFault::Write,
            OutFault::Memory => ToolFault::Memory,
        }
    }
}
