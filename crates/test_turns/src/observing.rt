//! Observers of a server.

// What an observer is notified of: each step, its sender, and what it made, after the calls of the wire for it.
use crate::wires::*;
use archive_keepers::NoKeeper;
use archive_memory::MemoryWire;
use archive_server::{DropCause, Server, ServerObserver};
use archive_table::{Observer, Step, Table};
use archive_wire::{RECEIVE_SIZE, Ready, ReadyWire, Wire, WireFault};
use std::alloc::{Allocator, Global};
use std::cell::Cell;
use std::test::Fail;
use test_samples::{ACK_0, ALICE, BOB, DATA_HUNDRED, WRQ};
use tftp_packet::{Endpoint, Out};

// A wire that counts where an observer sees it how often it has sent and closed.
#[derive(Drop)]
struct CountedWire<'a> {
    wire: MemoryWire,
    calls: &'a Cell<u8>,
}

impl CountedWire<'_> {
    fn count(&self) {
        self.calls.set(self.calls.get().saturating_add(1));
    }
}

impl Wire for CountedWire<'_> {
    ghost use Rattle.archive_memory.specs.MemoryWires.{calls_of};

    ghost calls = { λ w. calls_of w.wire };

    ghost failed = { λ w. w.wire.failures };

    fn open(&mut self) -> Result<u16, WireFault> {
        self.wire.open()
    }

    fn close(&mut self, port: u16) -> Result<(), WireFault> {
        self.count();
        self.wire.close(port)
    }

    fn receive(
        &mut self,
        port: u16,
        buffer: &mut [u8; RECEIVE_SIZE],
    ) -> Result<Option<(usize, Endpoint)>, WireFault> {
        self.wire.receive(port, buffer)
    }

    fn send(&mut self, out: &Out) -> Result<(), WireFault> {
        self.count();
        self.wire.send(out)
    }

    fn failures(&self) -> u64 {
        self.wire.failures()
    }
}

impl ReadyWire for CountedWire<'_> {
    fn wait(&mut self, after: u16, until: Option<u64>) -> Ready {
        self.wire.wait(after, until)
    }
}

// What an observer is notified of at a step.
#[derive(Clone, Copy, PartialEq)]
struct Seen {
    port: u16,
    from: Option<Endpoint>,
    // To whom it sends, and the first four bytes of that.
    to: Option<Endpoint>,
    head: u32,
    opened: bool,
    taken: bool,
    closed: bool,
    // How many transfers are live after it, and how often the wire had sent and closed by then.
    live: usize,
    calls: u8,
}

// A step that makes nothing of the one transfer there is, and sends nothing.
const NOTHING: Seen = Seen {
    port: 4000,
    from: None,
    to: None,
    head: 0,
    opened: false,
    taken: false,
    closed: false,
    live: 1,
    calls: 0,
};

// Where a test keeps what it is notified of. A step for which there is no memory is missing there.
#[derive(Drop)]
struct Collecting<'a> {
    seen: Vec<Seen>,
    calls: &'a Cell<u8>,
}

fn head_of(out: &Option<Out>) -> u32 {
    match out {
        Some(out) => match out.dgram.bytes() {
            [a, b, c, d, ..] => u32::from_be_bytes([*a, *b, *c, *d]),
            _ => 0,
        },
        None => 0,
    }
}

fn receiver_of(out: &Option<Out>) -> Option<Endpoint> {
    match out {
        Some(out) => Some(out.to),
        None => None,
    }
}

impl Observer for Collecting<'_> {
    fn on_step<A: Allocator + Copy>(
        &mut self,
        port: u16,
        from: Option<Endpoint>,
        step: &Step<A>,
        table: &Table<A>,
    ) {
        let _ = self.seen.push(Seen {
            port,
            from,
            to: receiver_of(&step.out),
            head: head_of(&step.out),
            opened: step.opened,
            taken: step.taken.is_some(),
            closed: step.closed,
            live: table.live(),
            calls: self.calls.get(),
        });
    }
}

// None of these requests is dropped.
impl ServerObserver for Collecting<'_> {
    fn on_started<A: Allocator + Copy>(
        &mut self,
        _at: Endpoint,
        _folder: Option<&str>,
        _table: &Table<A>,
    ) {}

    fn on_dropped(&mut self, from: Endpoint, _why: DropCause) {
        let _ = self.seen.push(Seen {
            from: Some(from),
            ..NOTHING
        });
    }

    fn on_stopped(&mut self) {}
}

// Makes a round for each of these datagrams, which arrive one by one.
fn round_for_each(
    alloc: Global,
    wire: &mut CountedWire<'_>,
    observer: &mut Collecting<'_>,
    server: &mut Server,
    arrivals: &[(u16, Endpoint, &[u8])],
) -> Result<(), Fail> {
    for (port, from, bytes) in arrivals {
        if bytes.len() > RECEIVE_SIZE {
            return Err(Fail::new("too long"));
        }
        wire.wire.arrive(alloc, *port, *from, bytes)?;
        server.round(wire, &mut NoKeeper, observer);
    }
    Ok(())
}

// The rounds of a put, with datagrams that are lost: one that is no request, and a request for which the wire has no
// port. Nothing waits before two of the rounds, so the transfer times out.
fn put(
    alloc: Global,
    wire: &mut CountedWire<'_>,
    observer: &mut Collecting<'_>,
    server: &mut Server,
) -> Result<(), Fail> {
    const ARRIVALS: &[(u16, Endpoint, &[u8])] = &[
        (6969, ALICE, ACK_0),
        (6969, BOB, b"\0\x01lynx.dac\0octet\0"),
        (6969, ALICE, WRQ),
        (4000, ALICE, DATA_HUNDRED),
        (4000, ALICE, DATA_HUNDRED),
        (4000, BOB, ACK_0),
    ];
    round_for_each(alloc, wire, observer, server, ARRIVALS)?;
    server.round(wire, &mut NoKeeper, observer);
    server.round(wire, &mut NoKeeper, observer);
    round_for_each(alloc, wire, observer, server, &[(6969, BOB, WRQ)])
}

// A step that answers its sender with a datagram that begins so, and how often the wire had sent and closed by then.
fn answer(from: Endpoint, head: u32, calls: u8) -> Seen {
    Seen {
        from: Some(from),
        to: Some(from),
        head,
        calls,
        ..NOTHING
    }
}

// The steps of that put: a request that is refused, and whose port is closed; the request, the block, the block again, a
// stranger's datagram, and two time-outs.
fn steps_of_put() -> [Seen; 7] {
    [
        Seen {
            port: 6969,
            live: 0,
            ..answer(BOB, 0x0005_0001, 2)
        },
        Seen {
            opened: true,
            ..answer(ALICE, 0x0004_0000, 3)
        },
        Seen {
            taken: true,
            ..answer(ALICE, 0x0004_0001, 4)
        },
        answer(ALICE, 0x0004_0001, 5),
        answer(BOB, 0x0005_0005, 6),
        Seen {
            calls: 6,
            ..NOTHING
        },
        Seen {
            closed: true,
            live: 0,
            calls: 7,
            ..NOTHING
        },
    ]
}

// Lets an observer see that put to a new server.
fn watch(
    alloc: Global,
    wire: &mut CountedWire<'_>,
    observer: &mut Collecting<'_>,
) -> Result<(), Fail> {
    let mut server = Server::new(alloc, 6969);
    put(alloc, wire, observer, &mut server)
}

// What an observer sees of that put at this wire.
fn seen_at(alloc: Global, wire: &mut CountedWire<'_>, calls: &Cell<u8>) -> Result<Vec<Seen>, Fail> {
    let mut observer = Collecting {
        seen: Vec::new(alloc),
        calls,
    };
    watch(alloc, wire, &mut observer)?;
    Ok(observer.seen)
}

// The same at a new wire.
fn all_seen(alloc: Global) -> Result<Vec<Seen>, Fail> {
    let calls = Cell::new(0);
    let mut wire = CountedWire {
        wire: wire_of(alloc, &[4001, 4000])?,
        calls: &calls,
    };
    seen_at(alloc, &mut wire, &calls)
}

// Whether these are the steps of that put.
fn are_seen(alloc: Global) -> Result<bool, Fail> {
    let seen = all_seen(alloc)?;
    Ok(seen.as_slice() == steps_of_put().as_slice())
}

#[test]
fn an_observer_is_notified_of_each_step(rt: HostRuntime) -> Result<(), Fail> {
    assert!(rt; are_seen(rt.alloc())?);
    Ok(())
}
