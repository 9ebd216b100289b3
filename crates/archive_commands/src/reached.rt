//! How far a transfer came.

ghost use Rattle.std.specs.Prelude.{◌≡◌, ◌-◌};
ghost use Rattle.tftp_packet.specs.Decode.{decode_bytes};
ghost use Rattle.archive_commands.specs.Reached.{asking, noted, with_block, with_length};

use tftp_packet::{BLOCK_SIZE, Endpoint, Packet, decode};

/// How far a transfer of a client came, as the datagrams that it sends show. It sends DATA and ACKs only to the port that it is
/// bound to, so no other port counts.
#[derive(Clone, Copy, Debug, PartialEq, Eq)]
pub struct Reached {
    /// The server's host and request port.
    pub server: Endpoint,
    /// Whether the server's DATA or ACK was received.
    pub answered: bool,
    /// The last block that was received or acknowledged; 0 if none was.
    pub block: u16,
    /// The number of blocks of the file, if its length is known.
    pub blocks: Option<u64>,
}

impl Reached {
    /// A transfer that asks this server. It was not answered yet, and the length of its file is not known.
    pub fn asking(server: Endpoint) -> Self
        ensures { result ≡ asking server }
    {
        Reached {
            server,
            answered: false,
            block: 0,
            blocks: None,
        }
    }

    /// The same, of a file of this length in bytes if that is known.
    pub fn with_length(self, length: Option<u64>) -> Self
        ensures { result ≡ with_length self length }
    {
        let blocks = match length {
            Some(length) => Some(length / BLOCK_SIZE as u64 + 1),
            None => None,
        };
        Reached { blocks, ..self }
    }

    // Counts a block that was received or acknowledged.
    fn count(&mut self, block: u16)
        ensures { self.new ≡ with_block self.old block }
    {
        self.answered = true;
        self.block = self.block.max(block);
    }

    /// Counts what a datagram of these bytes says that the client sends: a DATA, that the block before it was acknowledged; an
    /// ACK, that its block was received. No other counts.
    pub fn note(&mut self, bytes: &[u8])
        ensures { self.new ≡ noted self.old (decode_bytes bytes.now) }
    {
        match decode(bytes) {
            Ok(Packet::Read { .. }) => {}
            Ok(Packet::Write { .. }) => {}
            Ok(Packet::Data { block, .. }) => self.count(block.saturating_sub(1)),
            Ok(Packet::Ack { block }) => self.count(block),
            Ok(Packet::Error { .. }) => {}
            Err(_) => {}
        }
    }
}
