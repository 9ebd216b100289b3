//! The clock, the sink and the history of the tests.

// A table whose steps are logged, with a clock of its own.
use archive_history::HistoryFolder;
use archive_log::ServerLog;
use archive_table::{Keeper, Observer, Table};
use log::Log;
use std::alloc::Global;
use std::cell::Cell;
use std::io;
use std::test::Fail;
use std::time::{Clock, Duration};
use test_samples::client;

// A clock that shows 2026-11-27T09:15:00.123Z, and 5 ms more at each reading of the time that does not go back.
#[derive(Drop)]
pub(crate) struct Morning {
    millis: Cell<u64>,
}

impl Morning {
    pub(crate) fn new() -> Self {
        Morning {
            millis: Cell::new(1000),
        }
    }
}

impl Clock for Morning {
    fn monotonic(&self) -> io::Result<Duration> {
        let millis = self.millis.get().wrapping_add(5);
        self.millis.set(millis);
        Ok(Duration::from_millis(millis))
    }

    fn since_1970(&self) -> io::Result<Duration> {
        Ok(Duration::from_millis(1_795_770_900_123))
    }
}

// A datagram from a client, by its number.
#[derive(Clone, Copy)]
pub(crate) enum Input<'a> {
    // At the request port, with this spare port.
    Ask(u16, u16, &'a [u8]),
    // At the port of a transfer.
    Recv(u16, u16, &'a [u8]),
}

// Makes the step of an input, and logs it.
pub(crate) fn log_step<C: Clock, L: Log, H: HistoryFolder, K: Keeper>(
    table: &mut Table,
    keeper: &mut K,
    log: &mut ServerLog<C, L, H>,
    input: Input<'_>,
) -> Result<(), Fail> {
    match input {
        Input::Ask(spare, from, bytes) => {
            if spare == table.request() || table.is_live(spare) {
                return Err(Fail::from("the spare port is in use"));
            }
            let step = table.on_request(spare, client(from), bytes);
            let port = if step.opened { spare } else { table.request() };
            log.on_step(port, Some(client(from)), &step, table);
        }
        Input::Recv(port, from, bytes) => {
            let step = table.on_datagram(keeper, port, client(from), bytes);
            log.on_step(port, Some(client(from)), &step, table);
        }
    }
    Ok(())
}

// The same for inputs in order.
pub(crate) fn log_steps<C: Clock, L: Log, H: HistoryFolder, K: Keeper>(
    table: &mut Table,
    keeper: &mut K,
    log: &mut ServerLog<C, L, H>,
    inputs: &[Input<'_>],
) -> Result<(), Fail> {
    for input in inputs {
        log_step(table, keeper, log, *input)?;
    }
    Ok(())
}
