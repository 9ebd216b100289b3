//! Clients and servers that wait.

// Clients that wait by the clock, over wires in memory.
use crate::wires::*;
use archive_client::Cause;
use archive_memory::MemoryWire;
use archive_runs::{GetRun, RunFault, get_in_rounds, put_in_rounds};
use archive_wire::ReadyWire;
use std::alloc::Global;
use std::test::Fail;
use test_samples::{DATA_HUNDRED, HUNDRED, SERVER, at};
use tws_file::Ruleset;

// What a put returns that is never answered, how many datagrams were sent, and the time at the end.
fn put_in_vain(alloc: Global, rounds: u64) -> Result<(Result<u64, RunFault>, usize, u64), Fail> {
    let file = Vec::from_slice(alloc, HUNDRED)?;
    let mut wire = wire_of(alloc, &[5000])?;
    let answer = put_in_rounds(&mut wire, SERVER, file, rounds);
    Ok((answer, send_count(&wire), wire.wait(0, None).time))
}

// The clock of the wire goes on to each moment that is waited for, so each round is a time-out.
#[test]
fn a_put_in_rounds_that_is_never_answered(rt: HostRuntime) -> Result<(), Fail> {
    let late = Err(RunFault::Transfer(Cause::TimedOut));
    for (rounds, sent, time) in [(0, 1, 0), (1, 2, 1000), (4, 5, 4000), (9, 5, 5000)] {
        assert_eq!(rt; put_in_vain(rt.alloc(), rounds)?, (late, sent, time));
    }
    Ok(())
}

// Lets a get of `len` bytes dally, at which its only block arrives once more. Returns the length, how much was sent by then,
// and the time.
fn dallied(
    alloc: Global,
    wire: &mut MemoryWire,
    run: &mut GetRun,
    len: u64,
) -> Result<(u64, usize, u64), Fail> {
    wire.arrive(alloc, 5000, at(4000), DATA_HUNDRED)?;
    run.dally(wire, 9);
    Ok((len, send_count(wire), wire.wait(0, None).time))
}

// Gets the file and dallies.
fn got_and_dallied(
    alloc: Global,
    wire: &mut MemoryWire,
    out: &mut Vec<u8>,
) -> Result<(u64, usize, u64), Fail> {
    match get_in_rounds(alloc, wire, SERVER, Ruleset::Lynx, 1, out) {
        Ok((len, mut run)) => dallied(alloc, wire, &mut run, len),
        Err(_) => Err(Fail::new("not got")),
    }
}

// The same at a wire with that block, and whether it has the file.
fn got_at(alloc: Global, wire: &mut MemoryWire) -> Result<((u64, usize, u64), bool), Fail> {
    let mut out = Vec::new(alloc);
    let got = got_and_dallied(alloc, wire, &mut out)?;
    Ok((got, out.as_slice() == HUNDRED.as_slice()))
}

fn got(alloc: Global) -> Result<((u64, usize, u64), bool), Fail> {
    let mut wire = answered_wire(alloc)?;
    got_at(alloc, &mut wire)
}

// A get writes its file in the round in which it has it. It ends 250 milliseconds after the repeated block.
#[test]
fn a_get_in_rounds(rt: HostRuntime) -> Result<(), Fail> {
    assert_eq!(rt; got(rt.alloc())?, ((28, 3, 250), true));
    Ok(())
}
