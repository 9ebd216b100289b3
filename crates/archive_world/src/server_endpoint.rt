//! The server's endpoint.

use tftp_packet::Endpoint;

/// The server's endpoint: its host and its request port.
pub const SERVER: Endpoint = Endpoint {
    host: 1,
    port: 6969,
};
