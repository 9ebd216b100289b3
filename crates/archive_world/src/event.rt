//! The events of a schedule.

use crate::datagram::Datagram;
use crate::op::Op;
use std::alloc::{Allocator, Global};
use tftp_packet::Endpoint;

/// What may happen next. A loss is a datagram that is never delivered.
#[derive(Drop)]
#[derive_where(Debug)]
pub enum Event<A: Allocator = Global> {
    /// An operation begins: its client sends its request.
    Begin(Op<A>),
    /// A datagram that was sent arrives at its target; any may arrive again, and in any order.
    Deliver {
        /// Which one, counted from 0 over all that were ever sent.
        index: usize,
        /// If it goes to the server's request port: the port that is free for a transfer.
        spare: u16,
    },
    /// A client times out.
    ClientTimeout {
        /// The client's endpoint.
        client: Endpoint,
    },
    /// A port of the server times out.
    ServerTimeout {
        /// The port.
        port: u16,
    },
    /// A stranger's datagram enters the network.
    Stray(Datagram<A>),
    /// The server restarts, with the collections that its keeper has.
    Restart,
    /// A datagram completes a file, and it is not known whether the collection that it makes is kept: the server answers
    /// that it is not, and restarts.
    UnknownKeep {
        /// Which datagram, counted from 0 over all that were ever sent.
        index: usize,
        /// Whether the restart finds the collection.
        found: bool,
    },
}
