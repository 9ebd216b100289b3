//! What observes a server.

use crate::drop_cause::DropCause;
use archive_table::{NoObserver, Observer, Table};
use std::alloc::Allocator;
use tftp_packet::Endpoint;

/// An observer of a server: it is notified when the server starts and stops, of each step of its table, and of each request
/// that is dropped.
pub trait ServerObserver: Observer {
    /// Observes that the server starts. It listens at this address and port, with the collections of its table, which are
    /// kept in this folder if there is one.
    fn on_started<A: Allocator + Copy>(
        &mut self,
        at: Endpoint,
        folder: Option<&str>,
        table: &Table<A>,
    );

    /// Observes that a request of this endpoint was dropped.
    fn on_dropped(&mut self, from: Endpoint, why: DropCause);

    /// Observes that the server makes no more steps.
    fn on_stopped(&mut self);
}

impl ServerObserver for NoObserver {
    fn on_started<A: Allocator + Copy>(
        &mut self,
        _at: Endpoint,
        _folder: Option<&str>,
        _table: &Table<A>,
    ) {}

    fn on_dropped(&mut self, _from: Endpoint, _why: DropCause) {}

    fn on_stopped(&mut self) {}
}
