//! Carries datagrams between wires in memory.

// A server and clients in one run of turns, each at a wire in memory: a datagram that one wire has sent arrives at
// another when the test says so, also more than once.
use crate::wires::*;
use archive_client::State;
use archive_keepers::NoKeeper;
use archive_memory::{Entry, MemoryWire};
use archive_runs::{GetRun, PutRun};
use archive_server::{Server, serve_turns};
use std::alloc::Global;
use std::test::Fail;
use test_samples::{
    ACK_0, ACK_1, ALICE, DATA_HUNDRED, EMPTY_MS, HUNDRED, NINETY, SERVER, UNKNOWN_TRANSFER, at,
};
use tftp_packet::{Endpoint, Out};
use tws_file::Ruleset;

// What a wire has sent as its datagram number `n`, counted from 0.
fn sent_as(wire: &MemoryWire, n: usize) -> Option<&Out> {
    let mut left = n;
    for entry in wire.log() {
        if let Entry::Sent { out, .. } = entry {
            if left == 0 {
                return Some(out);
            }
            left -= 1;
        }
    }
    None
}

// Carries datagram number `n` of a wire, which is this host's, to another wire.
fn carry(
    alloc: Global,
    from: &MemoryWire,
    host: u32,
    n: usize,
    to: &mut MemoryWire,
) -> Result<(), Fail> {
    let Some(out) = sent_as(from, n) else {
        return Err(Fail::new("not sent"));
    };
    let source = Endpoint {
        host,
        port: out.from_port,
    };
    Ok(to.arrive(alloc, out.to.port, source, out.dgram.bytes())?)
}

// A server at its wire.
#[derive(Drop)]
struct Archive {
    server: Server,
    wire: MemoryWire,
}

impl Archive {
    fn new(alloc: Global, opens: &[u16]) -> Result<Self, Fail> {
        let wire = wire_of(alloc, opens)?;
        Ok(Archive {
            server: Server::new(alloc, 6969),
            wire,
        })
    }

    // Carries datagram number `n` of a client here, and makes turns, so that each port is visited. Returns how many files
    // were taken.
    fn take(
        &mut self,
        alloc: Global,
        client: &MemoryWire,
        host: u32,
        n: usize,
    ) -> Result<u64, Fail> {
        carry(alloc, client, host, n, &mut self.wire)?;
        Ok(serve_turns(&mut self.wire, &mut NoKeeper, &mut self.server, 6))
    }

    // Carries datagram number `n` to a client that puts, which makes a turn.
    fn deliver(
        &self,
        alloc: Global,
        n: usize,
        client: &mut MemoryWire,
        run: &mut PutRun,
    ) -> Result<(), Fail> {
        carry(alloc, &self.wire, 1, n, client)?;
        run.turn(client);
        Ok(())
    }
}

// ---- a request that arrives twice

// The steps of a put whose request arrives twice, as the number of the datagram that arrives: two answers come, the
// client stays with the first, and the transfer that it refuses is closed before the block arrives. Returns how many
// files were taken at each datagram.
fn put_twice(
    alloc: Global,
    archive: &mut Archive,
    client: &mut MemoryWire,
    run: &mut PutRun,
) -> Result<[u64; 4], Fail> {
    let first = archive.take(alloc, client, 2, 0)?;
    let again = archive.take(alloc, client, 2, 0)?;
    archive.deliver(alloc, 0, client, run)?;
    archive.deliver(alloc, 1, client, run)?;
    let refused = archive.take(alloc, client, 2, 2)?;
    let block = archive.take(alloc, client, 2, 1)?;
    archive.deliver(alloc, 2, client, run)?;
    Ok([first, again, refused, block])
}

// Whether each of the two ends has sent its three datagrams, the client the request first.
fn were_sent_twice(archive: &MemoryWire, client: &MemoryWire) -> bool {
    let counts = (send_count(archive), send_count(client));
    let times = (
        sent_times(archive, 4000, ALICE, ACK_0),
        sent_times(archive, 4001, ALICE, ACK_0),
        sent_times(client, 5000, at(4000), DATA_HUNDRED),
    );
    let last = (
        sent_last(archive, 4000, ALICE, ACK_1),
        sent_last(client, 5000, at(4001), UNKNOWN_TRANSFER),
    );
    (counts, times, last) == ((3, 3), (1, 1, 1), (true, true))
}

// Whether the server has taken the file, and only the first of its transfers is live.
fn has_taken(alloc: Global, server: &Server) -> bool {
    let table = server.table();
    let has_texts = has_texts(alloc, table, HUNDRED, EMPTY_MS);
    (table.live(), table.next_port(0), has_texts) == (1, Some(4000), true)
}

// Whether a put that has sent its request goes so, with this client.
fn is_put_once(
    alloc: Global,
    archive: &mut Archive,
    client: &mut MemoryWire,
    run: &mut PutRun,
) -> Result<bool, Fail> {
    let taken = put_twice(alloc, archive, client, run)?;
    let has_taken = has_taken(alloc, &archive.server);
    let were_sent = were_sent_twice(&archive.wire, client);
    let state = run.client().state();
    Ok((taken, state, has_taken, were_sent) == ([0, 0, 0, 1], State::Sent, true, true))
}

fn puts_once(alloc: Global, archive: &mut Archive) -> Result<bool, Fail> {
    let mut client = wire_of(alloc, &[5000])?;
    let mut run = begun_put(alloc, &mut client, HUNDRED)?;
    is_put_once(alloc, archive, &mut client, &mut run)
}

// ---- gets that cross a put

// Makes the turns of a put that has sent its request. The server has sent `answers` datagrams before. Returns whether
// the file was taken.
fn finish_put(
    alloc: Global,
    archive: &mut Archive,
    client: &mut MemoryWire,
    run: &mut PutRun,
    host: u32,
    answers: usize,
) -> Result<bool, Fail> {
    let _opened = archive.take(alloc, client, host, 0)?;
    archive.deliver(alloc, answers, client, run)?;
    let taken = archive.take(alloc, client, host, 1)?;
    archive.deliver(alloc, answers.wrapping_add(1), client, run)?;
    Ok(taken == 1)
}

// The same, and whether the client knows.
fn is_put(
    alloc: Global,
    archive: &mut Archive,
    client: &mut MemoryWire,
    run: &mut PutRun,
    host: u32,
    answers: usize,
) -> Result<bool, Fail> {
    let taken = finish_put(alloc, archive, client, run, host, answers)?;
    Ok(taken && run.client().state() == State::Sent)
}

// The same for a new put of a file.
fn puts(
    alloc: Global,
    archive: &mut Archive,
    host: u32,
    file: &[u8],
    answers: usize,
) -> Result<bool, Fail> {
    let mut client = wire_of(alloc, &[5000])?;
    let mut run = begun_put(alloc, &mut client, file)?;
    is_put(alloc, archive, &mut client, &mut run, host, answers)
}

// Begins a get, whose request arrives.
fn asked(
    alloc: Global,
    archive: &mut Archive,
    client: &mut MemoryWire,
    host: u32,
) -> Result<GetRun, Fail> {
    let Ok(run) = GetRun::begin(alloc, client, SERVER, Ruleset::Lynx) else {
        return Err(Fail::new("not begun"));
    };
    let _opened = archive.take(alloc, client, host, 0)?;
    Ok(run)
}

// Whether a get has this file.
fn has_file(alloc: Global, run: &GetRun, file: &[u8]) -> bool {
    match run.client().file() {
        Some(got) => match got.to_vec(alloc) {
            Ok(bytes) => bytes.as_slice() == file,
            Err(_) => false,
        },
        None => false,
    }
}

// Whether a get that is sent datagram number `n` of the server has this file, and acknowledges it.
fn has_got(
    alloc: Global,
    archive: &mut Archive,
    client: &mut MemoryWire,
    run: &mut GetRun,
    host: u32,
    n: usize,
    file: &[u8],
) -> Result<bool, Fail> {
    carry(alloc, &archive.wire, 1, n, client)?;
    run.turn(client);
    let _closed = archive.take(alloc, client, host, 1)?;
    Ok(has_file(alloc, run, file))
}

// Gets a collection that is this file, as the server's datagram number `n`.
fn gets(
    alloc: Global,
    archive: &mut Archive,
    host: u32,
    n: usize,
    file: &[u8],
) -> Result<bool, Fail> {
    let mut client = wire_of(alloc, &[5000])?;
    let mut run = asked(alloc, archive, &mut client, host)?;
    has_got(alloc, archive, &mut client, &mut run, host, n, file)
}

// A put of a better file begins and ends, and then the first block of a get arrives that had begun before. Whether the put
// was taken, and the get has the collection as it was when it began.
fn finish_both(
    alloc: Global,
    archive: &mut Archive,
    client: &mut MemoryWire,
    run: &mut GetRun,
) -> Result<(bool, bool), Fail> {
    let put = puts(alloc, archive, 4, NINETY, 3)?;
    let got = has_got(alloc, archive, client, run, 3, 2, HUNDRED)?;
    Ok((put, got))
}

// The same for a new get, whose request arrives.
fn crosses(alloc: Global, archive: &mut Archive) -> Result<(bool, bool), Fail> {
    let mut client = wire_of(alloc, &[5000])?;
    let mut run = asked(alloc, archive, &mut client, 3)?;
    finish_both(alloc, archive, &mut client, &mut run)
}

// A put, the get and the put that cross, and another get: whether each is right.
fn gets_around_a_put(alloc: Global, archive: &mut Archive) -> Result<[bool; 4], Fail> {
    let first = puts(alloc, archive, 2, HUNDRED, 0)?;
    let (put, got) = crosses(alloc, archive)?;
    let last = gets(alloc, archive, 5, 5, NINETY)?;
    Ok([first, put, got, last])
}

// Whether each is right. The server has sent two ACKs for each put and a block for each get, and of the four transfers only
// those of the puts still wait for a repeated last block.
fn gets_across(alloc: Global, archive: &mut Archive) -> Result<bool, Fail> {
    let got = gets_around_a_put(alloc, archive)?;
    let sent = send_count(&archive.wire);
    Ok((got, sent, archive.server.table().live()) == ([true; 4], 6, 2))
}

// ---- new servers

#[derive(Clone, Copy)]
enum Deed {
    PutOnce,
    GetAcross,
}

fn perform(alloc: Global, archive: &mut Archive, deed: Deed) -> Result<bool, Fail> {
    match deed {
        Deed::PutOnce => puts_once(alloc, archive),
        Deed::GetAcross => gets_across(alloc, archive),
    }
}

// Whether this comes out right at a new server, whose wire opens these ports.
fn is_right(alloc: Global, opens: &[u16], deed: Deed) -> Result<bool, Fail> {
    let mut archive = Archive::new(alloc, opens)?;
    perform(alloc, &mut archive, deed)
}

#[test]
fn a_repeated_request(rt: HostRuntime) -> Result<(), Fail> {
    assert!(rt; is_right(rt.alloc(), &[4000, 4001], Deed::PutOnce)?);
    Ok(())
}

// The next get has the new collection.
#[test]
fn gets_across_a_put(rt: HostRuntime) -> Result<(), Fail> {
    let opens = [4000, 4001, 4002, 4003];
    assert!(rt; is_right(rt.alloc(), &opens, Deed::GetAcross)?);
    Ok(())
}
