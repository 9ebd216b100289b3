//! A server's turns, by hand.

// The server that counts turns, over wires in memory.
use crate::wires::*;
use archive_keepers::NoKeeper;
use archive_memory::MemoryWire;
use archive_server::{Server, serve_turns};
use archive_wire::Wire;
use std::alloc::Global;
use std::test::Fail;
use test_samples::{ACK_0, ACK_1, ALICE, DATA_HUNDRED, WRQ};
use tws_file::Ruleset;

// A number of turns, how many files are taken in them, and how many transfers are live and solutions the Lynx collection has
// after them.
type Row = (u64, u64, usize, usize);

fn is_served(wire: &mut MemoryWire, server: &mut Server, row: Row) -> bool {
    let (turns, taken, live, solutions) = row;
    let now_taken = serve_turns(wire, &mut NoKeeper, server, turns);
    let table = server.table();
    let left = (table.live(), table.collection(Ruleset::Lynx).len());
    (now_taken, left) == (taken, (live, solutions))
}

// Makes turns of a server. Each row has also how many datagrams were sent by then.
fn are_served(wire: &mut MemoryWire, server: &mut Server, rows: &[(Row, usize)]) -> bool {
    for (row, sent) in rows {
        if !is_served(wire, server, *row) || send_count(wire) != *sent {
            return false;
        }
    }
    true
}

// The same with a new server.
fn are_served_at_new(alloc: Global, wire: &mut MemoryWire, rows: &[(Row, usize)]) -> bool {
    are_served(wire, &mut Server::new(alloc, 6969), rows)
}

// Whether the calls of a wire were those of a put in two turns.
fn has_put(wire: &MemoryWire) -> bool {
    let [came, opened, first, next, last] = wire.log() else {
        return false;
    };
    is_came(came, 6969, ALICE, WRQ)
        && is_opened(opened, Some(4000))
        && is_sent(first, 4000, ALICE, ACK_0, true)
        && is_came(next, 4000, ALICE, DATA_HUNDRED)
        && is_sent(last, 4000, ALICE, ACK_1, true)
}

// Whether a request arrived, this port was opened for it, and nothing more arrived.
fn has_opened_alone(wire: &MemoryWire, port: Option<u16>) -> bool {
    let [came, opened, quiet] = wire.log() else {
        return false;
    };
    is_came(came, 6969, ALICE, WRQ) && is_opened(opened, port) && is_quiet(quiet, 6969)
}

// Whether the receive failed, and the request was answered in the second turn.
fn has_come_later(wire: &MemoryWire) -> bool {
    let [failed, came, opened, sent] = wire.log() else {
        return false;
    };
    is_failed(failed, 6969)
        && is_came(came, 6969, ALICE, WRQ)
        && is_opened(opened, Some(4000))
        && is_sent(sent, 4000, ALICE, ACK_0, true)
}

// Whether a transfer is live, and its first block waits at its port.
fn has_block_waiting(wire: &MemoryWire) -> bool {
    let [came, opened, sent, failed] = wire.log() else {
        return false;
    };
    is_came(came, 6969, ALICE, WRQ)
        && is_opened(opened, Some(4000))
        && is_sent(sent, 4000, ALICE, ACK_0, true)
        && is_failed(failed, 4000)
}

// Whether the ACK of the request and that of the last block were sent, with these results.
fn has_acked(wire: &MemoryWire, first_ok: bool, last_ok: bool) -> bool {
    let [_, opened, first, came, last] = wire.log() else {
        return false;
    };
    is_opened(opened, Some(4000))
        && is_sent(first, 4000, ALICE, ACK_0, first_ok)
        && is_came(came, 4000, ALICE, DATA_HUNDRED)
        && is_sent(last, 4000, ALICE, ACK_1, last_ok)
}

// Whether the calls of a wire were those of a put in two turns whose `n`-th call fails: a receive, an open, so that
// nothing is sent, a send, the receive of the block, the last send.
fn has_failed_at(wire: &MemoryWire, n: u64) -> bool {
    match n {
        0 => wire.telling() && has_put(wire),
        1 => has_come_later(wire),
        2 => has_opened_alone(wire, None),
        3 => has_acked(wire, false, true),
        4 => has_block_waiting(wire),
        _ => has_acked(wire, true, false),
    }
}

// The same of one whose spare port is this. Nothing more arrives if that is 0.
fn has_calls(wire: &MemoryWire, port: u16, n: u64) -> bool {
    if port == 0 {
        has_opened_alone(wire, Some(0))
    } else {
        has_failed_at(wire, n)
    }
}

// Whether the two turns of such a put are as this row, with these calls, of which only that one fails.
fn is_put(alloc: Global, port: u16, n: u64, row: (Row, usize)) -> Result<bool, Fail> {
    let mut wire = put_wire(alloc, port)?;
    wire.fail_at(n);
    let is_served = are_served_at_new(alloc, &mut wire, &[row]);
    let has_calls = has_calls(&wire, port, n);
    Ok(is_served && has_calls && wire.failures() == u64::from(n > 0))
}

// A put, one whose spare port is 0, and one for each call that fails.
#[test]
fn puts_in_two_turns(rt: HostRuntime) -> Result<(), Fail> {
    const ROWS: [(u16, u64, (Row, usize)); 7] = [
        (4000, 0, ((2, 1, 1, 1), 2)),
        (0, 0, ((2, 0, 0, 0), 0)),
        (4000, 1, ((2, 0, 1, 0), 1)),
        (4000, 2, ((2, 0, 0, 0), 0)),
        (4000, 3, ((2, 1, 1, 1), 2)),
        (4000, 4, ((2, 0, 1, 0), 1)),
        (4000, 5, ((2, 1, 1, 1), 2)),
    ];
    for (port, n, row) in ROWS {
        assert!(rt; is_put(rt.alloc(), port, n, row)?, "{port}, at {n}");
    }
    Ok(())
}

// The last ACK of a transfer is sent again after 200 quiet turns, four times; then the transfer is closed.
const QUIET: &[(Row, usize)] = &[
    ((200, 0, 1, 0), 1),
    ((1, 0, 1, 0), 2),
    ((199, 0, 1, 0), 2),
    ((1, 0, 1, 0), 3),
    ((599, 0, 1, 0), 5),
    ((1, 0, 0, 0), 5),
];

fn is_quiet_so(alloc: Global) -> Result<bool, Fail> {
    let mut wire = request_wire(alloc, 4000)?;
    Ok(are_served_at_new(alloc, &mut wire, QUIET))
}

#[test]
fn a_transfer_that_stays_quiet(rt: HostRuntime) -> Result<(), Fail> {
    assert!(rt; is_quiet_so(rt.alloc())?);
    Ok(())
}
