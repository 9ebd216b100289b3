//! Two ports of one wire, which are ready in turn.

// A wire over sockets of the system with two ports, each of which is visited when it is ready.
use crate::wires::{ack, listening, loopback};
use archive_sockets::UdpWire;
use archive_wire::{RECEIVE_SIZE, ReadyWire, Wire, WireFault};
use std::test::Fail;
use std::time::Instant;
use tftp_packet::{Endpoint, Packet, decode};

// The result of a read of a port: the number of an ACK's block, and where the ACK came from.
type Came = Option<(u16, Endpoint)>;

// A client's wire with a port.
fn opened(rt: HostRuntime) -> Result<(UdpWire<HostRuntime>, u16), Fail> {
    let mut wire = UdpWire::new(rt);
    let port = wire.open()?;
    Ok((wire, port))
}

// A wire that listens, its port, and another one.
fn listening_twice(rt: HostRuntime) -> Result<(UdpWire<HostRuntime>, u16, u16), Fail> {
    let (mut wire, low) = listening(rt)?;
    let high = wire.open()?;
    Ok((wire, low, high))
}

// A wire with two ports, and a peer that sends to them.
#[derive(Drop)]
struct Pair {
    wire: UdpWire<HostRuntime>,
    low: u16,
    high: u16,
    peer: UdpWire<HostRuntime>,
    from: u16,
}

impl Pair {
    fn open(rt: HostRuntime) -> Result<Self, Fail> {
        let (wire, low, high) = listening_twice(rt)?;
        let (peer, from) = opened(rt)?;
        Ok(Pair {
            wire,
            low,
            high,
            peer,
            from,
        })
    }

    fn send(&mut self, to: u16, block: u16) -> Result<(), WireFault> {
        self.peer.send(&ack(self.from, to, block))
    }

    // Reads an ACK at a port.
    fn read(&mut self, port: u16) -> Result<Came, Fail> {
        let mut buffer = [0; RECEIVE_SIZE];
        let Some((count, from)) = self.wire.receive(port, &mut buffer)? else {
            return Ok(None);
        };
        match decode(&buffer[..count]) {
            Ok(Packet::Ack { block }) => Ok(Some((block, from))),
            _ => Err(Fail::new("another datagram came")),
        }
    }

    // Waits for the next port after this one, however long, and reads it.
    fn visit(&mut self, after: u16) -> Result<(u16, Came), Fail> {
        let Some(port) = self.wire.wait(after, None).port else {
            return Err(Fail::new("no port is ready"));
        };
        Ok((port, self.read(port)?))
    }
}

// Sends three ACKs to each port.
fn send_to_both(pair: &mut Pair) -> Result<(), WireFault> {
    for (low, high) in [(1, 4), (2, 5), (3, 6)] {
        pair.send(pair.low, low)?;
        pair.send(pair.high, high)?;
    }
    Ok(())
}

// Whether the next visits are to these ports, and find the ACKs of these blocks there.
fn visits(pair: &mut Pair, acks: [(u16, u16); 6]) -> Result<bool, Fail> {
    let mut last = 0;
    for (port, block) in acks {
        if pair.visit(last)? != (port, Some((block, loopback(pair.from)))) {
            return Ok(false);
        }
        last = port;
    }
    Ok(true)
}

// Whether the ports are visited in turn, to each of which three ACKs are sent.
fn visits_in_turn(pair: &mut Pair) -> Result<bool, Fail> {
    let (low, high) = (pair.low, pair.high);
    send_to_both(pair)?;
    let acks = [
        (low, 1),
        (high, 4),
        (low, 2),
        (high, 5),
        (low, 3),
        (high, 6),
    ];
    visits(pair, acks)
}

fn new_pair_visits_in_turn(rt: HostRuntime) -> Result<bool, Fail> {
    let mut pair = Pair::open(rt)?;
    visits_in_turn(&mut pair)
}

#[test]
fn ready_ports_in_turn(rt: HostRuntime) -> Result<(), Fail> {
    assert!(rt; new_pair_visits_in_turn(rt)?);
    Ok(())
}

// How many microseconds a read of the lower port takes that finds nothing.
fn time_to_find_nothing(rt: HostRuntime, pair: &mut Pair) -> Result<u128, Fail> {
    let start = Instant::now(&rt)?;
    if pair.read(pair.low)?.is_some() {
        return Err(Fail::new("an ACK came"));
    }
    Ok(start.elapsed(&rt)?.as_micros())
}

// After the lower port was read, a wait returns it once more, but it has nothing. How long the next read of it takes, and
// the one after that.
fn times_of_two_reads(rt: HostRuntime, pair: &mut Pair) -> Result<(u128, u128), Fail> {
    pair.send(pair.low, 1)?;
    let visited = pair.visit(0)?;
    let given = pair.wire.wait(0, Some(0)).port;
    if visited != (pair.low, Some((1, loopback(pair.from)))) || given != Some(pair.low) {
        return Err(Fail::new("another port is ready"));
    }
    Ok((
        time_to_find_nothing(rt, pair)?,
        time_to_find_nothing(rt, pair)?,
    ))
}

// The least of twenty times each.
fn least_times(rt: HostRuntime, pair: &mut Pair) -> Result<(u128, u128), Fail> {
    let (mut first, mut second) = (u128::MAX, u128::MAX);
    for _ in 0..20 {
        let (given, again) = times_of_two_reads(rt, pair)?;
        first = first.min(given);
        second = second.min(again);
    }
    Ok((first, second))
}

fn least_times_of_new(rt: HostRuntime) -> Result<(u128, u128), Fail> {
    let mut pair = Pair::open(rt)?;
    least_times(rt, &mut pair)
}

// The port that a wait has just returned is read at once, and after that it is waited at again.
#[test]
fn a_port_that_is_given_is_not_waited_at(rt: HostRuntime) -> Result<(), Fail> {
    let (first, second) = least_times_of_new(rt)?;
    assert!(rt; first < 4000 && 4000 <= second, "{first} {second}");
    Ok(())
}

// The ports that three waits return. Three datagrams have arrived at the upper port, and one arrives at the lower after
// the upper one was read.
fn three_waits(pair: &mut Pair) -> Result<(u16, u16, Option<u16>), Fail> {
    let (low, high) = (pair.low, pair.high);
    for block in [1, 2, 3] {
        pair.send(high, block)?;
    }
    let (first, _) = pair.visit(0)?;
    pair.send(low, 4)?;
    let (second, _) = pair.visit(high)?;
    Ok((first, second, pair.wire.wait(low, None).port))
}

// Whether these are the upper port, the lower and the upper.
fn waits_in_turn(pair: &mut Pair) -> Result<bool, Fail> {
    let (low, high) = (pair.low, pair.high);
    Ok(three_waits(pair)? == (high, low, Some(high)))
}

fn new_pair_waits_in_turn(rt: HostRuntime) -> Result<bool, Fail> {
    let mut pair = Pair::open(rt)?;
    waits_in_turn(&mut pair)
}

#[test]
fn a_busy_port_starves_no_other(rt: HostRuntime) -> Result<(), Fail> {
    assert!(rt; new_pair_waits_in_turn(rt)?);
    Ok(())
}

// Closes the upper port. Returns the ready port of the next wait, the result of a read of the lower port, and the ready
// port of the wait after it.
fn after_close(pair: &mut Pair) -> Result<(Option<u16>, Came, Option<u16>), Fail> {
    pair.wire.close(pair.high)?;
    let ready = pair.wire.wait(pair.high, Some(0)).port;
    let got = pair.read(pair.low)?;
    let last = pair.wire.wait(pair.low, Some(0)).port;
    Ok((ready, got, last))
}

// Whether these are the lower port, nothing and none, if the upper port is closed while it is ready.
fn gives_no_closed_port(pair: &mut Pair) -> Result<bool, Fail> {
    let low = pair.low;
    three_waits(pair)?;
    Ok(after_close(pair)? == (Some(low), None, None))
}

fn new_pair_gives_no_closed_port(rt: HostRuntime) -> Result<bool, Fail> {
    let mut pair = Pair::open(rt)?;
    gives_no_closed_port(&mut pair)
}

// The lower port is read again, and then none is ready.
#[test]
fn a_closed_port_is_not_given(rt: HostRuntime) -> Result<(), Fail> {
    assert!(rt; new_pair_gives_no_closed_port(rt)?);
    Ok(())
}

// How often the upper port is read in forty visits. Two datagrams have arrived at it, and before each visit another
// arrives at the lower port.
fn visits_above(pair: &mut Pair) -> Result<u32, Fail> {
    pair.send(pair.high, 1)?;
    pair.send(pair.high, 2)?;
    let mut last = 0;
    let mut visits = 0_u32;
    for block in 0..40 {
        pair.send(pair.low, block)?;
        let (port, got) = pair.visit(last)?;
        if port == pair.high && got.is_some() {
            visits = visits.wrapping_add(1);
        }
        last = port;
    }
    Ok(visits)
}

fn new_pair_visits_above(rt: HostRuntime) -> Result<u32, Fail> {
    let mut pair = Pair::open(rt)?;
    visits_above(&mut pair)
}

// The upper port is read twice within twenty polls.
#[test]
fn a_second_datagram_is_not_kept_back(rt: HostRuntime) -> Result<(), Fail> {
    assert_eq!(rt; new_pair_visits_above(rt)?, 2);
    Ok(())
}
