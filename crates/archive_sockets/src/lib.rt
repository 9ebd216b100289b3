//! A wire over UDP sockets.
//!
//! No clause can say what a socket does. What is proved is that each call ends if the system's calls do, that a fault is named
//! after its call, and that failures are counted. The rest is tested.
//!
//! Read `specs/Arrivals.antt` first: which port is read next, and which are open. README.md shows how the crate is called.
#![tactic(auto)]

mod laws;
mod open_port;
mod open_ports;
mod port_deck;
mod udp_wire;
mod unread;
mod watch;

pub use laws::dealt_ports;
pub use udp_wire::UdpWire;
