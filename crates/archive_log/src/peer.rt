//! How an endpoint is displayed.

ghost use Rattle.std.specs.Prelude.{◌≡◌};
ghost use Rattle.std.specs.Net.Text.{socket_v4_text};
ghost use Rattle.archive_log.specs.Lines.{peer_text};

use std::net::{Ipv4Addr, SocketAddrV4};
use tftp_packet::Endpoint;

/// The address and port of an endpoint, which show as `127.0.0.1:5000`.
pub(crate) fn peer_address(peer: Endpoint) -> SocketAddrV4
    ensures { socket_v4_text result ≡ peer_text peer }
{
    SocketAddrV4::new(Ipv4Addr::from(peer.host.to_be_bytes()), peer.port)
}
