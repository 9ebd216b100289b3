//! A server's rounds by the clock.

// Rounds of a server over wires in memory whose clock the test sets.
use crate::wires::*;
use archive_keepers::NoKeeper;
use archive_memory::MemoryWire;
use archive_server::{Server, serve_rounds};
use archive_table::NoObserver;
use archive_wire::{RECEIVE_SIZE, Ready, ReadyWire, Wire};
use std::alloc::Global;
use std::test::Fail;
use test_samples::{ACK_0, ACK_1, ALICE, BUSY, DATA_HUNDRED, WRQ};
use tftp_packet::Endpoint;
use tws_file::Ruleset;

// Makes one round of the server. Returns how many files it takes, and whether it has sent this to the client last.
fn acks(wire: &mut MemoryWire, server: &mut Server, ack: &[u8; 4]) -> (u64, bool) {
    let taken = serve_rounds(wire, &mut NoKeeper, &mut NoObserver, server, 1);
    (taken, sent_last(wire, 4000, ALICE, ack))
}

// Makes one round of the server. Returns how many transfers are live after it.
fn lives(wire: &mut MemoryWire, server: &mut Server) -> usize {
    serve_rounds(wire, &mut NoKeeper, &mut NoObserver, server, 1);
    server.table().live()
}

// The round of a request, and that of the block that arrives 999 milliseconds after it.
fn put_in_rounds(
    alloc: Global,
    wire: &mut MemoryWire,
    server: &mut Server,
) -> Result<[(u64, bool); 2], Fail> {
    let first = acks(wire, server, ACK_0);
    wire.set_time(999);
    wire.arrive(alloc, 4000, ALICE, DATA_HUNDRED)?;
    Ok([first, acks(wire, server, ACK_1)])
}

// Whether a server takes the file of a put, whose transfer then waits for the last block twice, and is closed; and sends
// two datagrams.
fn takes_and_waits(
    alloc: Global,
    wire: &mut MemoryWire,
    server: &mut Server,
) -> Result<bool, Fail> {
    let rounds = put_in_rounds(alloc, wire, server)?;
    let solutions = server.table().collection(Ruleset::Lynx).len();
    let live = (lives(wire, server), lives(wire, server));
    let left = (solutions, live, send_count(wire));
    Ok((rounds, left) == ([(0, true), (1, true)], (1, (1, 0), 2)))
}

// Makes a round of a server, to which a request has arrived, and then one at each of these times, before which a malformed
// datagram arrives at the request port. All that had arrived up to the second time was handed out. Returns whether each
// time the expected number of datagrams was sent.
fn are_sent_in_time(
    alloc: Global,
    wire: &mut MemoryWire,
    server: &mut Server,
) -> Result<bool, Fail> {
    serve_rounds(wire, &mut NoKeeper, &mut NoObserver, server, 1);
    for (time, settled, sent) in [
        (999, 999, 1),
        (1500, 999, 1),
        (1500, 1000, 2),
        (2499, 2499, 2),
        (2500, 2500, 3),
        (2501, 2501, 3),
    ] {
        wire.set_time(time);
        wire.set_settled(Some(settled));
        wire.arrive(alloc, 6969, ALICE, b"no packet")?;
        serve_rounds(wire, &mut NoKeeper, &mut NoObserver, server, 1);
        if send_count(wire) != sent {
            return Ok(false);
        }
    }
    Ok(true)
}

// A wire at which an ACK arrives at each of these ports.
fn wire_with_acks(alloc: Global, ports: &[u16]) -> Result<MemoryWire, Fail> {
    let mut wire = wire_of(alloc, &[])?;
    for port in ports {
        wire.arrive(alloc, *port, ALICE, ACK_0)?;
    }
    Ok(wire)
}

// Whether the datagram that waits at this port is such an ACK.
fn has_ack(wire: &mut MemoryWire, port: u16) -> bool {
    wire.receive(port, &mut [0; RECEIVE_SIZE]) == Ok(Some((4, ALICE)))
}

// Whether these ports are ready in this order, each after the one before it, and the datagram there is received.
fn take_turns(wire: &mut MemoryWire, first: u16, ports: &[u16]) -> bool {
    let mut after = first;
    for port in ports {
        let ready = Ready {
            port: Some(*port),
            time: 0,
            settled: None,
        };
        if wire.wait(after, None) != ready || !has_ack(wire, *port) {
            return false;
        }
        after = *port;
    }
    true
}

// Among ready ports the next one above the last has its turn.
#[test]
fn ports_that_are_ready(rt: HostRuntime) -> Result<(), Fail> {
    let mut wire = wire_with_acks(rt.alloc(), &[5, 9, 5, 7, 5])?;
    let are_ready = take_turns(&mut wire, 5, &[7, 9, 5, 5, 5]);
    let quiet = Ready {
        port: None,
        time: 70,
        settled: Some(70),
    };
    assert_eq!(rt;
        (are_ready, wire.wait(5, Some(70)), wire.wait(5, Some(60))),
        (true, quiet, quiet)
    );
    Ok(())
}

// The 66 ports from 4000 on.
pub(crate) fn many_ports() -> [u16; 66] {
    let mut ports = [0; 66];
    let mut next = 4000_u16;
    for port in ports.iter_mut() {
        *port = next;
        next = next.wrapping_add(1);
    }
    ports
}

// Makes the round of a request to write a file, which comes from a host of its own.
pub(crate) fn ask(
    alloc: Global,
    wire: &mut MemoryWire,
    server: &mut Server,
    host: u16,
) -> Result<Endpoint, Fail> {
    let from = Endpoint {
        host: u32::from(host),
        port: 5000,
    };
    wire.arrive(alloc, 6969, from, WRQ)?;
    serve_rounds(wire, &mut NoKeeper, &mut NoObserver, server, 1);
    Ok(from)
}

// Makes the rounds of a put that is taken, and of 63 requests, with which all places are taken.
fn take_all_places(alloc: Global, wire: &mut MemoryWire, server: &mut Server) -> Result<(), Fail> {
    let first = ask(alloc, wire, server, 9)?;
    wire.arrive(alloc, 4000, first, DATA_HUNDRED)?;
    serve_rounds(wire, &mut NoKeeper, &mut NoObserver, server, 1);
    for host in 10_u16..73 {
        ask(alloc, wire, server, host)?;
    }
    Ok(())
}

// Whether 63 transfers are live once all places were taken, the next request is let in, and the one after it is refused.
fn gives_way(alloc: Global, wire: &mut MemoryWire, server: &mut Server) -> Result<bool, Fail> {
    take_all_places(alloc, wire, server)?;
    let live = server.table().live();
    let next = ask(alloc, wire, server, 73)?;
    let is_let_in = sent_last(wire, 4064, next, ACK_0);
    let last = ask(alloc, wire, server, 74)?;
    let is_refused = sent_last(wire, 6969, last, BUSY);
    Ok(is_let_in && is_refused && live == 63)
}

// ---- new servers

#[derive(Clone, Copy)]
enum Deed {
    TakeAndWait,
    SendInTime,
    GiveWay,
}

fn perform(
    alloc: Global,
    wire: &mut MemoryWire,
    server: &mut Server,
    deed: Deed,
) -> Result<bool, Fail> {
    match deed {
        Deed::TakeAndWait => takes_and_waits(alloc, wire, server),
        Deed::SendInTime => are_sent_in_time(alloc, wire, server),
        Deed::GiveWay => gives_way(alloc, wire, server),
    }
}

// Whether a new server does it.
fn is_done(alloc: Global, wire: &mut MemoryWire, deed: Deed) -> Result<bool, Fail> {
    perform(alloc, wire, &mut Server::new(alloc, 6969), deed)
}

// The same at a new wire at which a request has arrived.
fn is_done_at_request(alloc: Global, deed: Deed) -> Result<bool, Fail> {
    let mut wire = request_wire(alloc, 4000)?;
    is_done(alloc, &mut wire, deed)
}

#[test]
fn a_put_to_the_ready_server(rt: HostRuntime) -> Result<(), Fail> {
    assert!(rt; is_done_at_request(rt.alloc(), Deed::TakeAndWait)?);
    Ok(())
}

// A transfer times out one second after it last sent, once all that had arrived by then was handed out, however much
// arrives at the request port meanwhile.
#[test]
fn a_busy_request_port(rt: HostRuntime) -> Result<(), Fail> {
    assert!(rt; is_done_at_request(rt.alloc(), Deed::SendInTime)?);
    Ok(())
}

fn gives_way_at_new(alloc: Global) -> Result<bool, Fail> {
    let mut wire = wire_of(alloc, &many_ports())?;
    is_done(alloc, &mut wire, Deed::GiveWay)
}

// The place of a transfer that only dallies is there for the very next request, and no other place is.
#[test]
fn a_dallying_transfer_gives_way(rt: HostRuntime) -> Result<(), Fail> {
    assert!(rt; gives_way_at_new(rt.alloc())?);
    Ok(())
}
