//! Who is notified of each step of a table.

use crate::step::Step;
use crate::table::Table;
use std::alloc::Allocator;
use tftp_packet::Endpoint;

/// Is notified of each step of a table, once it was made and its datagram was sent.
///
/// It borrows what it observes, and has no ghost member: so it changes nothing but itself, and no contract depends on
/// it.
pub trait Observer {
    /// Observes a step. `port` is that of the transfer, also of one that the step opened or closed, or the request port
    /// if a request opened none; `from` is the source of the datagram, `None` at a time-out; `table` is the table after
    /// the step.
    fn on_step<A: Allocator + Copy>(
        &mut self,
        port: u16,
        from: Option<Endpoint>,
        step: &Step<A>,
        table: &Table<A>,
    );
}

/// An observer that does nothing.
#[derive(Clone, Copy, Debug)]
pub struct NoObserver;

impl Observer for NoObserver {
    fn on_step<A: Allocator + Copy>(
        &mut self,
        _port: u16,
        _from: Option<Endpoint>,
        _step: &Step<A>,
        _table: &Table<A>,
    ) {}
}
