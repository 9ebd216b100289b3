//! The calls that a wire in memory remembers.

use std::alloc::{Allocator, Global};
use tftp_packet::{Endpoint, Out};
use tws_file::Bytes;

/// A call of a wire, with its result.
#[derive(Drop)]
#[derive_where(Debug)]
pub enum Entry<A: Allocator = Global> {
    /// `open` returned this port; `None` if it failed.
    Opened(Option<u16>),
    /// `close` of this port, and whether it succeeded.
    Closed(u16, bool),
    /// `receive` returned a datagram that had arrived at this port.
    Came {
        /// The port.
        port: u16,
        /// The endpoint that it came from.
        from: Endpoint,
        /// Its bytes.
        bytes: Bytes<A>,
    },
    /// `receive` found nothing at this port.
    Quiet(u16),
    /// `receive` failed at this port.
    Failed(u16),
    /// `send`.
    Sent {
        /// The datagram.
        out: Out,
        /// Whether it was sent.
        ok: bool,
    },
    /// `wait` of a wire that reports which port is ready.
    Waited {
        /// The port above which the next ready one was asked for.
        after: u16,
        /// The moment until which it was to wait, if any.
        until: Option<u64>,
        /// The ready port, if there is one.
        ready: Option<u16>,
        /// The time, in milliseconds.
        now: u64,
        /// The time up to which all that arrived was handed out, if that was just found.
        settled: Option<u64>,
    },
}
