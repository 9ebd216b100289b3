//! Why bytes are no packet.

use thiserror::Error;

/// Why bytes are not a packet. The checks run in this order; the first that fails is reported. A fault is displayed as
/// its name.
#[derive(Clone, Copy, Debug, PartialEq, Eq, Error)]
pub enum PacketFault {
    /// There are fewer than two bytes, so no opcode.
    #[error("Short")]
    Short,
    /// There are more than `MAX_DATAGRAM` bytes, which are the opcode, a block number and a full block.
    #[error("TooLong")]
    TooLong,
    /// The opcode is not one of 1 to 5.
    #[error("BadOpcode")]
    BadOpcode,
    /// A request has fewer than two zero bytes after its opcode: its name or its mode is not terminated.
    #[error("BadRequest")]
    BadRequest,
    /// A DATA has fewer than four bytes, so no block number; or an ACK has fewer or more than four.
    #[error("BadBlock")]
    BadBlock,
    /// An ERROR has no zero byte after its code: its text is not terminated.
    #[error("BadError")]
    BadError,
}
