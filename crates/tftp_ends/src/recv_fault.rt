//! Why a block was not taken.

ghost use Rattle.std.specs.Prelude.{◌≡◌};
ghost use Rattle.tftp_ends.specs.declared.recv_fault.RecvFault.TheVariants.{Memory};
ghost use Rattle.tftp_ends.specs.Ends.{refusal_of};

use std::alloc::AllocError;
use tftp_packet::Refusal;
use thiserror::Error;

/// Why a DATA was not taken. The receiver is unchanged.
#[derive(Clone, Copy, Debug, PartialEq, Eq, Error)]
pub enum RecvFault {
    /// Out of memory.
    #[error("Memory")]
    Memory,
    /// Block `MAX_BLOCKS` is full, so the file goes on after it.
    #[error("TooLong")]
    TooLong,
}

impl RecvFault {
    /// The ERROR that is sent to the peer (RFC 1350 section 5).
    pub fn refusal(self) -> Refusal
        ensures { result ≡ refusal_of self }
    {
        match self {
            RecvFault::Memory => Refusal::OutOfMemory,
            RecvFault::TooLong => Refusal::FileTooLong,
        }
    }
}

impl From<AllocError> for RecvFault {
    ghost from_gives = { λ _ e. e ≡ Memory };

    fn from(_error: AllocError) -> Self {
        RecvFault::Memory
    }
}
