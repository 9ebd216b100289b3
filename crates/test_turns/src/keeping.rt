//! Keepers that fail while a server runs.

// Servers with a keeper, over wires in memory: a put that is not kept, one that is, and a start with what was kept.
use crate::wires::*;
use archive_memory::{MemoryKeeper, MemoryWire};
use archive_server::{Server, serve_rounds, serve_turns};
use archive_table::{KeepFault, LoadFault, NoObserver, Table};
use std::alloc::{AllocError, Global};
use std::test::Fail;
use test_samples::{
    ACK_0, ACK_1, ALICE, BOB, DATA_HUNDRED, EMPTY_LYNX, EMPTY_MS, HUNDRED, NOT_KEPT, WRQ,
};
use tftp_packet::Endpoint;

// What is left of a put: how many files were taken, how many transfers are live, whether this was sent to the client
// last, and whether the Lynx collection has this text and the other one is empty.
type Left = (u64, usize, bool, bool);

fn left(
    alloc: Global,
    wire: &MemoryWire,
    table: &Table,
    taken: u64,
    last: (u16, Endpoint, &[u8]),
    lynx: &[u8],
) -> Left {
    let (port, client, bytes) = last;
    let is_sent = sent_last(wire, port, client, bytes);
    (
        taken,
        table.live(),
        is_sent,
        has_texts(alloc, table, lynx, EMPTY_MS),
    )
}

// Makes one turn, or one round. Returns how many files are taken.
fn pass(
    wire: &mut MemoryWire,
    keeper: &mut MemoryKeeper,
    server: &mut Server,
    in_rounds: bool,
) -> u64 {
    if in_rounds {
        serve_rounds(wire, keeper, &mut NoObserver, server, 1)
    } else {
        serve_turns(wire, keeper, server, 1)
    }
}

// Lets the request and the block of a put arrive, each before a turn or a round. Returns how many files are taken.
fn put(
    alloc: Global,
    wire: &mut MemoryWire,
    keeper: &mut MemoryKeeper,
    server: &mut Server,
    in_rounds: bool,
    port: u16,
    client: Endpoint,
) -> Result<u64, Fail> {
    wire.arrive(alloc, 6969, client, WRQ)?;
    let first = pass(wire, keeper, server, in_rounds);
    wire.arrive(alloc, port, client, DATA_HUNDRED)?;
    Ok(first.saturating_add(pass(wire, keeper, server, in_rounds)))
}

// Whether the calls of a wire were those of a put in turns that is not kept.
fn has_refused(wire: &MemoryWire) -> bool {
    let [came, opened, first, next, last, closed] = wire.log() else {
        return false;
    };
    let request = (
        is_came(came, 6969, ALICE, WRQ),
        is_opened(opened, Some(4000)),
    );
    let is_acked = is_sent(first, 4000, ALICE, ACK_0, true);
    let has_block = is_came(next, 4000, ALICE, DATA_HUNDRED);
    let is_refused = is_sent(last, 4000, ALICE, NOT_KEPT, true);
    let is_closed = is_closed(closed, 4000);
    request == (true, true) && is_acked && has_block && is_refused && is_closed
}

// A put whose keep fails, and then one of the same file by another client. Returns what is left of each, and, in turns,
// whether the calls for the first one were the expected ones.
fn put_twice(
    alloc: Global,
    wire: &mut MemoryWire,
    keeper: &mut MemoryKeeper,
    server: &mut Server,
    in_rounds: bool,
) -> Result<(bool, Left, Left), Fail> {
    let taken = put(alloc, wire, keeper, server, in_rounds, 4000, ALICE)?;
    let has_refused = in_rounds || has_refused(wire);
    let refused = (4000, ALICE, NOT_KEPT.as_slice());
    let first = left(alloc, wire, server.table(), taken, refused, EMPTY_LYNX);
    let taken = put(alloc, wire, keeper, server, in_rounds, 4001, BOB)?;
    let acked = (4001, BOB, ACK_1.as_slice());
    let second = left(alloc, wire, server.table(), taken, acked, HUNDRED);
    Ok((has_refused, first, second))
}

// The same to a new server.
fn put_twice_to_new(
    alloc: Global,
    wire: &mut MemoryWire,
    keeper: &mut MemoryKeeper,
    in_rounds: bool,
) -> Result<(bool, Left, Left), Fail> {
    let mut server = Server::new(alloc, 6969);
    put_twice(alloc, wire, keeper, &mut server, in_rounds)
}

// The same with a new keeper, and whether it was given the file both times.
fn put_and_keep(
    alloc: Global,
    wire: &mut MemoryWire,
    in_rounds: bool,
) -> Result<((bool, Left, Left), bool), Fail> {
    let mut keeper = MemoryKeeper::new(alloc);
    keeper.fail_at(1);
    let puts = put_twice_to_new(alloc, wire, &mut keeper, in_rounds)?;
    Ok((puts, was_given(&keeper, &[false, true])))
}

// The same at a new wire.
fn put_at_new(alloc: Global, in_rounds: bool) -> Result<((bool, Left, Left), bool), Fail> {
    let mut wire = wire_of(alloc, &[4000, 4001])?;
    put_and_keep(alloc, &mut wire, in_rounds)
}

// Whether the first put is refused, is merged into no collection, and is closed, and the file is taken when it is put
// again.
fn is_kept_later(alloc: Global, in_rounds: bool) -> Result<bool, Fail> {
    let left = put_at_new(alloc, in_rounds)?;
    Ok(left == ((true, (0, 0, true, true), (1, 1, true, true)), true))
}

// So it is in turns, and in rounds.
#[test]
fn a_keep_that_fails(rt: HostRuntime) -> Result<(), Fail> {
    let in_turns = is_kept_later(rt.alloc(), false)?;
    let in_rounds = is_kept_later(rt.alloc(), true)?;
    assert_eq!(rt; (in_turns, in_rounds), (true, true));
    Ok(())
}

// ---- a start with what was kept

// A keeper that has HUNDRED for Lynx, and for MS the text of an empty collection.
fn keeper_of(alloc: Global) -> Result<MemoryKeeper, AllocError> {
    let lynx = Vec::from_slice(alloc, HUNDRED)?;
    let ms = Vec::from_slice(alloc, EMPTY_MS)?;
    MemoryKeeper::with(alloc, Some(lynx), Some(ms))
}

// Why a server does not start with what this keeper has; if it does, whether it has both texts.
fn starts_with(alloc: Global, keeper: &mut MemoryKeeper) -> Result<bool, LoadFault> {
    match Server::load(alloc, 6969, keeper) {
        Ok(server) => Ok(has_texts(alloc, server.table(), HUNDRED, EMPTY_MS)),
        Err(fault) => Err(fault),
    }
}

// Whether that is so with what was kept, if this call of the keeper fails.
fn starts_so(
    alloc: Global,
    failing: u64,
    wanted: Result<bool, LoadFault>,
) -> Result<bool, AllocError> {
    let mut keeper = keeper_of(alloc)?;
    keeper.fail_at(failing);
    Ok(starts_with(alloc, &mut keeper) == wanted)
}

#[test]
fn a_start_with_what_was_kept(rt: HostRuntime) -> Result<(), Fail> {
    const DEVICE: Result<bool, LoadFault> = Err(LoadFault::Keep(KeepFault::Device));
    for (failing, wanted) in [(0, Ok(true)), (1, DEVICE), (2, DEVICE), (3, Ok(true))] {
        assert!(rt; starts_so(rt.alloc(), failing, wanted)?, "at {failing}");
    }
    Ok(())
}
