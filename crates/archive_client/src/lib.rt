//! The archive's clients: one sends a file, the other fetches a collection, over TFTP (RFC 1350). A client binds to one
//! port of the server's host, counts a file as sent only at the last ACK, and returns a fetched file only once it is
//! complete. README.md shows how to run one, and what is proved.
//!
//! Read `specs/Client.antt` first: what a client is, and what each datagram and each time-out does to it.
//!
//! `put` and `get` are the two clients; they share a client's port and server (`link`), what a datagram is to it
//! (`input`), and how far it is (`phase`).
#![tactic(auto)]

mod get;
mod input;
mod laws;
mod link;
mod phase;
mod put;
mod state;
mod too_long;

pub use get::Get;
pub use laws::{client_bounds, client_patience, last_ack, one_port, other_host, over_client};
pub use put::Put;
pub use state::State;
pub use tftp_packet::Cause;
pub use too_long::TooLong;
