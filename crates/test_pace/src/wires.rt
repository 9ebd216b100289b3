//! A wire that holds last blocks, over one in memory.

// Which datagrams are held, and in which order they are handed out.
use archive_memory::MemoryWire;
use archive_pace::PacedWire;
use archive_wire::{RECEIVE_SIZE, ReadyWire, Wire};
use std::alloc::Global;
use std::io;
use std::test::Fail;
use std::time::{Clock, Duration};
use test_samples::{ACK_0, ALICE, BOB, CAROL, DATA_HUNDRED};

// A clock that stands still at the seventh second.
#[derive(Drop)]
struct Stopped;

impl Clock for Stopped {
    fn monotonic(&self) -> io::Result<Duration> {
        Ok(Duration::new(7, 0))
    }

    fn since_1970(&self) -> io::Result<Duration> {
        Ok(Duration::new(7, 0))
    }
}

// A wire at which last blocks have arrived at ports 4000 and 4001, and an ACK at port 4002.
fn arrived(alloc: Global) -> Result<MemoryWire, Fail> {
    let mut wire = MemoryWire::new(alloc, Vec::new(alloc));
    wire.arrive(alloc, 4000, ALICE, DATA_HUNDRED)?;
    wire.arrive(alloc, 4001, BOB, DATA_HUNDRED)?;
    wire.arrive(alloc, 4002, CAROL, ACK_0)?;
    Ok(wire)
}

// The port that is ready, 0 if none is, and how many bytes are received there.
fn visited<W: ReadyWire>(wire: &mut W, after: u16) -> (u16, usize) {
    let port = wire.wait(after, Some(0)).port.unwrap_or(0);
    let mut buffer = [0; RECEIVE_SIZE];
    match wire.receive(port, &mut buffer) {
        Ok(Some((count, _))) => (port, count),
        Ok(None) => (port, 0),
        Err(_) => (port, 9999),
    }
}

// Rounds of a server at that wire.
fn rounds(alloc: Global) -> Result<[(u16, usize); 6], Fail> {
    let mut wire = PacedWire::new(alloc, arrived(alloc)?, Stopped, 6969);
    let mut seen = [(0, 0); 6];
    let mut after = 0;
    for round in seen.iter_mut() {
        *round = visited(&mut wire, after);
        after = round.0;
    }
    Ok(seen)
}

#[test]
fn last_blocks_wait_for_what_is_ready(rt: HostRuntime) -> Result<(), Fail> {
    let seen = [
        (4000, 0),
        (4001, 0),
        (4002, 4),
        (4000, 32),
        (4001, 32),
        (0, 0),
    ];
    assert_eq!(rt; rounds(rt.alloc())?, seen);
    Ok(())
}
