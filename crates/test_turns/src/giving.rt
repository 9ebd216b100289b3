//! Which transfer gives way when places run out.

// Rounds of a server whose transfers have come so far by a time that the test sets.
use crate::rounds::{ask, many_ports};
use crate::wires::*;
use archive_keepers::NoKeeper;
use archive_memory::MemoryWire;
use archive_server::{Policies, Putters, Server, serve_rounds};
use archive_table::NoObserver;
use std::alloc::Global;
use std::test::Fail;
use test_samples::{ACK_0, ALICE, BUSY, DATA_HUNDRED, WRQ, whole_block};
use tftp_packet::Endpoint;

// Two transfers of one host, which has two places: how many whole blocks each has sent at time 0; when the host asks for a
// third; and which of the two give way.
struct Row {
    blocks: [u16; 2],
    now: u64,
    gone: [bool; 2],
}

const ROWS: &[Row] = &[
    // Neither was heard, for less than a second.
    Row {
        blocks: [0, 0],
        now: 999,
        gone: [false, false],
    },
    // One that was never heard for a second goes first, whichever port it has.
    Row {
        blocks: [0, 1],
        now: 1000,
        gone: [true, false],
    },
    Row {
        blocks: [1, 0],
        now: 1000,
        gone: [false, true],
    },
    // More than a block a second, and no more.
    Row {
        blocks: [2, 3],
        now: 1999,
        gone: [false, false],
    },
    Row {
        blocks: [2, 3],
        now: 2000,
        gone: [true, false],
    },
    // The slower one, but not before ten seconds.
    Row {
        blocks: [20, 12],
        now: 9999,
        gone: [false, false],
    },
    Row {
        blocks: [20, 12],
        now: 10_000,
        gone: [false, true],
    },
    // Equally slow.
    Row {
        blocks: [12, 12],
        now: 10_000,
        gone: [true, false],
    },
];

// An endpoint of that host.
fn own(port: u16) -> Endpoint {
    Endpoint { host: 9, port }
}

// Makes the round of a request of that host.
fn ask_from(
    alloc: Global,
    wire: &mut MemoryWire,
    server: &mut Server,
    port: u16,
) -> Result<(), Fail> {
    wire.arrive(alloc, 6969, own(port), WRQ)?;
    serve_rounds(wire, &mut NoKeeper, &mut NoObserver, server, 1);
    Ok(())
}

// Makes the rounds of the first whole blocks of a put.
fn send_blocks(
    alloc: Global,
    wire: &mut MemoryWire,
    server: &mut Server,
    ports: (u16, u16),
    count: u16,
) -> Result<(), Fail> {
    for k in 0..count {
        let block = whole_block(k.wrapping_add(1), 7);
        wire.arrive(alloc, ports.0, own(ports.1), &block)?;
        serve_rounds(wire, &mut NoKeeper, &mut NoObserver, server, 1);
    }
    Ok(())
}

// Whether the transfers at the first two ports are gone.
fn gone(server: &Server) -> [bool; 2] {
    let table = server.table();
    [table.peer(4000).is_none(), table.peer(4001).is_none()]
}

fn begin(
    alloc: Global,
    wire: &mut MemoryWire,
    server: &mut Server,
    blocks: [u16; 2],
) -> Result<(), Fail> {
    ask_from(alloc, wire, server, 5000)?;
    ask_from(alloc, wire, server, 5001)?;
    send_blocks(alloc, wire, server, (4000, 5000), blocks[0])?;
    send_blocks(alloc, wire, server, (4001, 5001), blocks[1])
}

// Whether the right ones are gone once the host asks for a third transfer, and whether it then gets it at the next try.
fn is_row(
    alloc: Global,
    wire: &mut MemoryWire,
    server: &mut Server,
    row: &Row,
) -> Result<bool, Fail> {
    begin(alloc, wire, server, row.blocks)?;
    wire.set_time(row.now);
    ask_from(alloc, wire, server, 5002)?;
    let left = gone(server);
    ask_from(alloc, wire, server, 5002)?;
    let is_let_in = sent_last(wire, 4002, own(5002), ACK_0);
    Ok(left == row.gone && is_let_in == (row.gone[0] || row.gone[1]))
}

// Whether a third transfer is let in while the first only dallies, and a fourth is not.
fn counts_no_dally(
    alloc: Global,
    wire: &mut MemoryWire,
    server: &mut Server,
) -> Result<bool, Fail> {
    ask_from(alloc, wire, server, 5000)?;
    wire.arrive(alloc, 4000, own(5000), DATA_HUNDRED)?;
    ask_from(alloc, wire, server, 5001)?;
    serve_rounds(wire, &mut NoKeeper, &mut NoObserver, server, 1);
    ask_from(alloc, wire, server, 5002)?;
    let is_let_in = sent_last(wire, 4002, own(5002), ACK_0);
    ask_from(alloc, wire, server, 5003)?;
    Ok(is_let_in && server.table().live() == 3)
}

// Whether of 64 transfers that were never heard none gives way before a second, and then the first one, and at once the
// next when a request takes its place.
fn gives_way_in_time(
    alloc: Global,
    wire: &mut MemoryWire,
    server: &mut Server,
) -> Result<bool, Fail> {
    for host in 10_u16..74 {
        ask(alloc, wire, server, host)?;
    }
    wire.set_time(999);
    let early = ask(alloc, wire, server, 74)?;
    let is_refused = sent_last(wire, 6969, early, BUSY) && server.table().live() == 64;
    wire.set_time(1000);
    wire.arrive(alloc, 6969, ALICE, b"no packet")?;
    serve_rounds(wire, &mut NoKeeper, &mut NoObserver, server, 1);
    let first = (server.table().live(), gone(server));
    let next = ask(alloc, wire, server, 75)?;
    // What the next one sends as it gives way comes after that.
    let is_let_in = sent_times(wire, 4065, next, ACK_0) == 1;
    let then = (server.table().live(), gone(server));
    Ok(is_refused && is_let_in && (first, then) == ((63, [true, false]), (63, [true, true])))
}

// Whether one that dallies gives way before those that were never heard for a second.
fn dallies_first(alloc: Global, wire: &mut MemoryWire, server: &mut Server) -> Result<bool, Fail> {
    ask(alloc, wire, server, 9)?;
    let second = ask(alloc, wire, server, 10)?;
    wire.arrive(alloc, 4001, second, DATA_HUNDRED)?;
    for host in 11_u16..72 {
        ask(alloc, wire, server, host)?;
    }
    serve_rounds(wire, &mut NoKeeper, &mut NoObserver, server, 1);
    wire.set_time(1000);
    ask(alloc, wire, server, 72)?;
    Ok((server.table().live(), gone(server)) == (63, [false, true]))
}

// ---- new servers

#[derive(Clone, Copy)]
enum Deed {
    CountNoDally,
    GiveWayInTime,
    DallyFirst,
}

fn perform(
    alloc: Global,
    wire: &mut MemoryWire,
    server: &mut Server,
    deed: Deed,
) -> Result<bool, Fail> {
    match deed {
        Deed::CountNoDally => counts_no_dally(alloc, wire, server),
        Deed::GiveWayInTime => gives_way_in_time(alloc, wire, server),
        Deed::DallyFirst => dallies_first(alloc, wire, server),
    }
}

// Lets a host have so many transfers with a server.
fn limit(server: &mut Server, per_host: usize) {
    server.set_policies(Policies {
        per_host,
        putters: Putters::All,
    });
}

fn performs(
    alloc: Global,
    wire: &mut MemoryWire,
    per_host: usize,
    deed: Deed,
) -> Result<bool, Fail> {
    let mut server = Server::new(alloc, 6969);
    limit(&mut server, per_host);
    perform(alloc, wire, &mut server, deed)
}

// Whether a new server does it at a new wire.
fn is_done(alloc: Global, per_host: usize, deed: Deed) -> Result<bool, Fail> {
    let mut wire = wire_of(alloc, &many_ports())?;
    performs(alloc, &mut wire, per_host, deed)
}

fn is_row_at(alloc: Global, wire: &mut MemoryWire, row: &Row) -> Result<bool, Fail> {
    let mut server = Server::new(alloc, 6969);
    limit(&mut server, 2);
    is_row(alloc, wire, &mut server, row)
}

fn is_row_at_new(alloc: Global, row: &Row) -> Result<bool, Fail> {
    let mut wire = wire_of(alloc, &[4000, 4001, 4002])?;
    is_row_at(alloc, &mut wire, row)
}

#[test]
fn which_gives_way(rt: HostRuntime) -> Result<(), Fail> {
    for row in ROWS {
        assert!(rt; is_row_at_new(rt.alloc(), row)?);
    }
    Ok(())
}

#[test]
fn a_transfer_that_dallies_has_no_place_of_its_host(rt: HostRuntime) -> Result<(), Fail> {
    assert!(rt; is_done(rt.alloc(), 2, Deed::CountNoDally)?);
    Ok(())
}

#[test]
fn a_silent_transfer_gives_way_after_a_second(rt: HostRuntime) -> Result<(), Fail> {
    assert!(rt; is_done(rt.alloc(), 64, Deed::GiveWayInTime)?);
    Ok(())
}

#[test]
fn one_that_dallies_gives_way_first(rt: HostRuntime) -> Result<(), Fail> {
    assert!(rt; is_done(rt.alloc(), 64, Deed::DallyFirst)?);
    Ok(())
}
