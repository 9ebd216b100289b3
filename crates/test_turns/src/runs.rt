//! Runs of clients with a server.

// Runs of clients over wires in memory.
ghost use Rattle.std.specs.Prelude.{◌≤◌};

use crate::wires::*;
use archive_client::Cause;
use archive_memory::MemoryWire;
use archive_runs::{RunFault, put_in_rounds, run_get, run_put};
use archive_wire::Wire;
use std::alloc::Global;
use std::test::Fail;
use test_samples::{HUNDRED, SERVER};
use tws_file::Ruleset;

// What a put of one whole block returns, in three turns or rounds.
fn put_a_block(
    alloc: Global,
    wire: &mut MemoryWire,
    in_rounds: bool,
) -> Result<Result<u64, RunFault>, Fail> {
    let file = vec![in alloc; 7; 512]?;
    if in_rounds {
        Ok(put_in_rounds(wire, SERVER, file, 3))
    } else {
        Ok(run_put(wire, SERVER, file, 3))
    }
}

// The same at a new wire, and how many datagrams are sent.
fn put_at_new(alloc: Global, in_rounds: bool) -> Result<(Result<u64, RunFault>, usize), Fail> {
    let mut wire = acking_wire(alloc)?;
    let put = put_a_block(alloc, &mut wire, in_rounds)?;
    Ok((put, send_count(&wire)))
}

#[test]
fn a_put_of_one_whole_block(rt: HostRuntime) -> Result<(), Fail> {
    let in_turns = put_at_new(rt.alloc(), false)?;
    let in_rounds = put_at_new(rt.alloc(), true)?;
    assert_eq!(rt; (in_turns, in_rounds), ((Ok(512), 3), (Ok(512), 3)));
    Ok(())
}

// What a get returns, and whether it has the file.
fn got(alloc: Global) -> Result<(Result<u64, RunFault>, bool), Fail> {
    let mut wire = answered_wire(alloc)?;
    let mut out = Vec::new(alloc);
    let got = run_get(alloc, &mut wire, SERVER, Ruleset::Lynx, 1, &mut out);
    Ok((got, out.as_slice() == HUNDRED.as_slice()))
}

#[test]
fn a_get_in_one_turn(rt: HostRuntime) -> Result<(), Fail> {
    assert_eq!(rt; got(rt.alloc())?, (Ok(28), true));
    Ok(())
}

// What a get returns that writes into this room.
fn got_into(alloc: Global, room: &mut [u8]) -> Result<Result<u64, RunFault>, Fail> {
    let mut wire = answered_wire(alloc)?;
    let mut out = room;
    Ok(run_get(alloc, &mut wire, SERVER, Ruleset::Lynx, 1, &mut out))
}

// Whether a get fails that writes into room for the first `j` bytes of the file, and those are written.
fn fails_after(alloc: Global, j: usize) -> Result<bool, Fail>
    requires { j ≤ 28 }
{
    let mut room = [0u8; 28];
    let got = got_into(alloc, &mut room[..j])?;
    let is_prefix = &room[..j] == &HUNDRED[..j];
    Ok(is_prefix && got == Err(RunFault::Write))
}

// Whatever is written before the writer fails is a prefix of the file.
#[test]
fn a_get_to_a_writer_that_fails(rt: HostRuntime) -> Result<(), Fail> {
    for j in 0..28usize {
        assert!(rt; fails_after(rt.alloc(), j)?, "{j}");
    }
    Ok(())
}

// What a put returns that is never answered, and whose `n`-th call of the wire fails, how many datagrams were sent, and
// how many calls failed.
fn put_in_vain(
    alloc: Global,
    n: u64,
    turns: u64,
) -> Result<(Result<u64, RunFault>, usize, u64), Fail> {
    let file = Vec::from_slice(alloc, HUNDRED)?;
    let mut wire = wire_of(alloc, &[5000])?;
    wire.fail_at(n);
    let answer = run_put(&mut wire, SERVER, file, turns);
    Ok((answer, send_count(&wire), wire.failures()))
}

// The first call is the open, the second the send of the request, which is sent again in turn 200. If no call fails, the
// request is sent five times.
#[test]
fn a_put_that_is_never_answered(rt: HostRuntime) -> Result<(), Fail> {
    const LATE: Result<u64, RunFault> = Err(RunFault::Transfer(Cause::TimedOut));
    for (n, turns, left) in [
        (1, 9, (Err(RunFault::Socket), 0, 1)),
        (2, 199, (LATE, 1, 1)),
        (2, 200, (LATE, 2, 1)),
        (0, 0, (LATE, 1, 0)),
        (0, 799, (LATE, 4, 0)),
        (0, 999, (LATE, 5, 0)),
        (0, 1000, (LATE, 5, 0)),
    ] {
        assert_eq!(rt; put_in_vain(rt.alloc(), n, turns)?, left);
    }
    Ok(())
}

fn has_name(alloc: Global, fault: RunFault, name: &str) -> bool {
    match format!(in alloc; "{fault}") {
        Ok(text) => text.as_str() == name,
        Err(_) => false,
    }
}

#[test]
fn faults_by_name(rt: HostRuntime) {
    let alloc = rt.alloc();
    let are_named = [
        has_name(alloc, RunFault::Socket, "Socket"),
        has_name(alloc, RunFault::Transfer(Cause::TimedOut), "timed out"),
        has_name(alloc, RunFault::Memory, "Memory"),
        has_name(alloc, RunFault::Write, "Write"),
    ];
    assert_eq!(rt; are_named, [true; 4]);
}
