//! Where a client sends its datagrams, and which of those it receives are for it.

ghost use Rattle.std.specs.Prelude.{◌≡◌};
ghost use Rattle.tftp_ends.specs.Input.{input_from_peer, input_from_other};
ghost use Rattle.archive_client.specs.Client.{client_input};
ghost use Rattle.tftp_packet.specs.Packet.{HasPacketFields};
ghost use Rattle.tftp_packet.specs.View.{packet_of};
ghost use Rattle.archive_client.specs.View.{input_of, IsInput};

use crate::input::Input;
use tftp_packet::{Dgram, Endpoint, Out, Packet, decode};

/// A client's own port, and the server that it talks to.
#[derive(Clone, Copy, Debug)]
pub(crate) struct Link {
    pub(crate) port: u16,
    pub(crate) server: Endpoint,
}

// Classifies a packet from the right port.
fn of_peer(packet: Packet<'_>) -> Input<'_>
    requires { HasPacketFields (packet_of packet) }
    ensures client_input { input_of result ≡ input_from_peer (packet_of packet.entry) }
    ensures bounds { IsInput (input_of result) }
{
    match packet {
        Packet::Data { block, body } => Input::Data { n: block, body },
        Packet::Ack { block } => Input::Ack(block),
        Packet::Error { code, .. } => Input::Refusal(code),
        Packet::Read { .. } | Packet::Write { .. } => Input::Nothing,
    }
}

// Classifies a packet from another port of the server's host. An ERROR is never answered.
fn of_other(packet: Packet<'_>) -> Input<'_>
    ensures { input_of result ≡ input_from_other (packet_of packet.entry) }
{
    match packet {
        Packet::Error { .. } => Input::Nothing,
        _ => Input::Stray,
    }
}

impl Link {
    /// A datagram to a port of the server's host.
    pub(crate) fn out(self, port: u16, dgram: Dgram) -> Out
        ensures { result ≡ record { from_port = self.port; to = record { host = self.server.host; port = port }; dgram = dgram } }
    {
        Out {
            from_port: self.port,
            to: Endpoint {
                host: self.server.host,
                port,
            },
            dgram,
        }
    }

    /// What a datagram means to a client that is bound to `peer`, or not bound yet if that is `None`.
    pub(crate) fn input<'a>(self, peer: Option<u16>, from: Endpoint, bytes: &'a [u8]) -> Input<'a>
        ensures client_input { input_of result ≡ client_input self.server.host peer from bytes.now }
        ensures bounds { IsInput (input_of result) }
    {
        if from.host != self.server.host {
            return Input::Nothing;
        }
        let Ok(packet) = decode(bytes) else {
            return Input::Nothing;
        };
        match peer {
            Some(peer) if from.port != peer => of_other(packet),
            _ => of_peer(packet),
        }
    }
}
