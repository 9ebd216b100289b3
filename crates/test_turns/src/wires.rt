//! Wires in memory whose calls fail.

// Wires in memory for the tests, the datagrams of a put and a get by hand, RFC 1350, and tests of a log's entries.
use archive_memory::{Entry, Kept, MemoryKeeper, MemoryWire};
use archive_runs::PutRun;
use archive_table::Table;
use std::alloc::Global;
use std::test::Fail;
use test_samples::{ACK_0, ACK_1, ACK_2, ALICE, DATA_HUNDRED, HUNDRED, SERVER, WRQ, at};
use tftp_packet::Endpoint;
use tws_file::Ruleset;

pub(crate) fn wire_of(alloc: Global, opens: &[u16]) -> Result<MemoryWire, Fail> {
    Ok(MemoryWire::new(alloc, Vec::from_slice(alloc, opens)?))
}

// A wire that opens this port, with a request from ALICE.
pub(crate) fn request_wire(alloc: Global, opens: u16) -> Result<MemoryWire, Fail> {
    let mut wire = wire_of(alloc, &[opens])?;
    wire.arrive(alloc, 6969, ALICE, WRQ)?;
    Ok(wire)
}

// The same with the whole put of HUNDRED, whose block arrives at 4000.
pub(crate) fn put_wire(alloc: Global, opens: u16) -> Result<MemoryWire, Fail> {
    let mut wire = request_wire(alloc, opens)?;
    wire.arrive(alloc, 4000, ALICE, DATA_HUNDRED)?;
    Ok(wire)
}

// A client's wire at which the only block of HUNDRED has arrived.
pub(crate) fn answered_wire(alloc: Global) -> Result<MemoryWire, Fail> {
    let mut wire = wire_of(alloc, &[5000])?;
    wire.arrive(alloc, 5000, at(4000), DATA_HUNDRED)?;
    Ok(wire)
}

fn acknowledge(alloc: Global, wire: &mut MemoryWire) -> Result<(), Fail> {
    for ack in [ACK_0, ACK_1, ACK_2] {
        wire.arrive(alloc, 5000, at(4000), ack)?;
    }
    Ok(())
}

// A client's wire at which the request of a put and its two blocks are acknowledged.
pub(crate) fn acking_wire(alloc: Global) -> Result<MemoryWire, Fail> {
    let mut wire = wire_of(alloc, &[5000])?;
    acknowledge(alloc, &mut wire)?;
    Ok(wire)
}

// A put of a file that has sent its request.
pub(crate) fn begun_put(alloc: Global, wire: &mut MemoryWire, file: &[u8]) -> Result<PutRun, Fail> {
    let file = Vec::from_slice(alloc, file)?;
    match PutRun::begin(wire, SERVER, file) {
        Ok(run) => Ok(run),
        Err(_) => Err(Fail::new("not begun")),
    }
}

pub(crate) fn is_came(entry: &Entry, at: u16, whom: Endpoint, what: &[u8]) -> bool {
    match entry {
        Entry::Came { port, from, bytes } => {
            *port == at && *from == whom && bytes.as_slice() == what
        }
        _ => false,
    }
}

pub(crate) fn is_sent(entry: &Entry, from: u16, to: Endpoint, what: &[u8], done: bool) -> bool {
    match entry {
        Entry::Sent { out, ok } => {
            out.from_port == from && out.to == to && out.dgram.bytes() == what && *ok == done
        }
        _ => false,
    }
}

pub(crate) fn is_opened(entry: &Entry, given: Option<u16>) -> bool {
    match entry {
        Entry::Opened(port) => *port == given,
        _ => false,
    }
}

pub(crate) fn is_closed(entry: &Entry, which: u16) -> bool {
    match entry {
        Entry::Closed(port, ok) => *port == which && *ok,
        _ => false,
    }
}

pub(crate) fn is_quiet(entry: &Entry, at: u16) -> bool {
    match entry {
        Entry::Quiet(port) => *port == at,
        _ => false,
    }
}

pub(crate) fn is_failed(entry: &Entry, at: u16) -> bool {
    match entry {
        Entry::Failed(port) => *port == at,
        _ => false,
    }
}

pub(crate) fn is_send(entry: &Entry) -> bool {
    match entry {
        Entry::Sent { .. } => true,
        _ => false,
    }
}

// How many datagrams were sent.
pub(crate) fn send_count(wire: &MemoryWire) -> usize {
    wire.log().iter().filter(|entry| is_send(entry)).count()
}

// How often this was sent.
pub(crate) fn sent_times(wire: &MemoryWire, from: u16, to: Endpoint, what: &[u8]) -> usize {
    let mut times = 0_usize;
    for entry in wire.log() {
        if is_sent(entry, from, to, what, true) {
            times = times.wrapping_add(1);
        }
    }
    times
}

// Whether this was sent last.
pub(crate) fn sent_last(wire: &MemoryWire, from: u16, to: Endpoint, what: &[u8]) -> bool {
    let mut last = false;
    for entry in wire.log() {
        if is_send(entry) {
            last = is_sent(entry, from, to, what, true);
        }
    }
    last
}

fn has_text(alloc: Global, table: &Table, ruleset: Ruleset, text: &[u8]) -> bool {
    let mut out = Vec::new(alloc);
    table.collection(ruleset).write_text(&mut out).is_ok() && out.as_slice() == text
}

// Whether the collections of a server have these texts.
pub(crate) fn has_texts(alloc: Global, table: &Table, lynx: &[u8], ms: &[u8]) -> bool {
    has_text(alloc, table, Ruleset::Lynx, lynx) && has_text(alloc, table, Ruleset::Ms, ms)
}

// Whether this is the text of HUNDRED for Lynx, and was kept or not, as `ok` says.
fn is_given(one: &Kept, ok: bool) -> bool {
    one.ruleset == Ruleset::Lynx && one.text.as_slice() == HUNDRED.as_slice() && one.ok == ok
}

// Whether a keeper was given that once for each of `wanted`, and kept it each time or not.
pub(crate) fn was_given(keeper: &MemoryKeeper, wanted: &[bool]) -> bool {
    let kept = keeper.kept();
    for (one, ok) in kept.iter().zip(wanted) {
        if !is_given(one, *ok) {
            return false;
        }
    }
    kept.len() == wanted.len()
}
