//! The ERRORs that are sent.

ghost use Rattle.std.specs.Prelude.{◌≡◌};
ghost use Rattle.tftp_packet.specs.Packet.{IsPacket, encode};
ghost use Rattle.tftp_packet.specs.Refusal.{refusal_code, refusal_text, refusal_packet};

use crate::dgram::Dgram;
use crate::encoding::encode_error;

/// The errors that this server and its clients send, each with its code (RFC 1350 section 5) and message. All code that
/// sends or reads them takes them from here.
#[derive(Clone, Copy, Debug, PartialEq, Eq)]
pub enum Refusal {
    /// A request in a mode other than octet.
    OctetOnly,
    /// A request to read a file that is not offered.
    NoSuchFile,
    /// A request while no more transfers can be opened.
    ServerBusy,
    /// A request to read a collection with more blocks than can be numbered.
    CollectionTooLong,
    /// Out of memory, at a request or at a block.
    OutOfMemory,
    /// A block past the last one that a file can have.
    FileTooLong,
    /// A datagram from a port that is not the transfer's.
    UnknownTransfer,
    /// A file whose collection could not be kept.
    NotKept,
}

impl Refusal {
    /// All of them, in the order of their declaration.
    pub const ALL: [Refusal; 8] = [
        Refusal::OctetOnly,
        Refusal::NoSuchFile,
        Refusal::ServerBusy,
        Refusal::CollectionTooLong,
        Refusal::OutOfMemory,
        Refusal::FileTooLong,
        Refusal::UnknownTransfer,
        Refusal::NotKept,
    ];

    /// The error code of RFC 1350 section 5: 0 not defined, 1 file not found, 3 disk full or allocation exceeded, 5
    /// unknown transfer ID.
    pub fn code(self) -> u16
        ensures { result ≡ refusal_code self }
    {
        match self {
            Refusal::OctetOnly
            | Refusal::ServerBusy
            | Refusal::CollectionTooLong
            | Refusal::NotKept => 0,
            Refusal::NoSuchFile => 1,
            Refusal::OutOfMemory | Refusal::FileTooLong => 3,
            Refusal::UnknownTransfer => 5,
        }
    }

    /// The human-readable message, without a zero byte.
    pub fn text(self) -> &'static [u8]
        ensures { result.now ≡ refusal_text self }
    {
        match self {
            Refusal::OctetOnly => b"octet only",
            Refusal::NoSuchFile => b"no such file",
            Refusal::ServerBusy => b"server busy",
            Refusal::CollectionTooLong => b"collection too long",
            Refusal::OutOfMemory => b"out of memory",
            Refusal::FileTooLong => b"file too long",
            Refusal::UnknownTransfer => b"unknown transfer",
            Refusal::NotKept => b"not kept",
        }
    }

    /// The ERROR with this code and message, and nothing after them.
    pub fn dgram(self) -> Dgram
        ensures bytes { result ≡ encode (refusal_packet self) }
        ensures packet { IsPacket (refusal_packet self) result }
    {
        encode_error(self.code(), self.text())
    }
}
