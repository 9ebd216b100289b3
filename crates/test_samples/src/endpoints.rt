//! Endpoints of the server and its peers.

use tftp_packet::Endpoint;

/// The server's request port.
pub const SERVER: Endpoint = Endpoint {
    host: 1,
    port: 6969,
};

/// The endpoint of its first transfer.
pub const PEER: Endpoint = Endpoint {
    host: 1,
    port: 4000,
};

/// Those of its second, third and fourth.
pub const SECOND_PEER: Endpoint = Endpoint {
    host: 1,
    port: 4001,
};

pub const THIRD_PEER: Endpoint = Endpoint {
    host: 1,
    port: 4002,
};

pub const FOURTH_PEER: Endpoint = Endpoint {
    host: 1,
    port: 4003,
};

/// A port of the server's host.
pub fn at(port: u16) -> Endpoint {
    Endpoint { host: 1, port }
}

/// The first four clients.
pub const ALICE: Endpoint = Endpoint {
    host: 2,
    port: 5000,
};

pub const BOB: Endpoint = Endpoint {
    host: 3,
    port: 5000,
};

pub const CAROL: Endpoint = Endpoint {
    host: 4,
    port: 5000,
};

pub const DAVE: Endpoint = Endpoint {
    host: 5,
    port: 5000,
};

/// The client with this number, counted from 0, so that the first is `ALICE`.
pub fn client(number: u16) -> Endpoint {
    Endpoint {
        host: 2 + u32::from(number),
        port: 5000,
    }
}
