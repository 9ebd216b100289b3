//! Calls of a wire that the system refuses.

// The wire over sockets of the system.
use crate::ports::past_port;
use archive_sockets::UdpWire;
use archive_wire::{RECEIVE_SIZE, ReadyWire, Wire, WireFault};
use std::net::{Ipv4Addr, SocketAddr, UdpSocket};
use std::test::Fail;
use tftp_packet::{Endpoint, Out, encode_ack};

// The loopback address of this host, 127.0.0.1.
const LOOPBACK: u32 = 0x7F00_0001;

// A port of this host.
pub(crate) fn loopback(port: u16) -> Endpoint {
    Endpoint {
        host: LOOPBACK,
        port,
    }
}

// A wire that listens, and its port.
pub(crate) fn listening(rt: HostRuntime) -> Result<(UdpWire<HostRuntime>, u16), Fail> {
    for port in 47000..48000u16 {
        if let Ok(wire) = UdpWire::listen(rt, port) {
            return Ok((wire, port));
        }
    }
    Err(Fail::new("no port is free"))
}

pub(crate) fn ack(from_port: u16, to: u16, block: u16) -> Out {
    Out {
        from_port,
        to: loopback(to),
        dgram: encode_ack(block),
    }
}

// What a close of a port that is not open, a send from it and a receive there return, and how many calls failed.
fn fail_at_a_closed_port(
    wire: &mut UdpWire<HostRuntime>,
    taken: u16,
) -> (Result<(), WireFault>, Result<(), WireFault>, bool, u64) {
    let closed = wire.close(5);
    let sent = wire.send(&ack(5, taken, 1));
    let received = wire.receive(5, &mut [0; RECEIVE_SIZE]);
    (
        closed,
        sent,
        received == Err(WireFault::Receive),
        wire.failures(),
    )
}

// What a send from a port that was open returns, and how many calls failed.
fn send_from_past_port(
    wire: &mut UdpWire<HostRuntime>,
    taken: u16,
) -> Result<(Result<(), WireFault>, u64), WireFault> {
    let port = past_port(wire)?;
    let sent = wire.send(&ack(port, taken, 1));
    Ok((sent, wire.failures()))
}

// Whether these calls fail, and each is counted, beside a port that is taken.
fn are_counted(rt: HostRuntime) -> Result<(bool, bool), Fail> {
    let (_other, taken) = listening(rt)?;
    let mut wire = UdpWire::new(rt);
    let first = fail_at_a_closed_port(&mut wire, taken);
    let second = send_from_past_port(&mut wire, taken);
    Ok((
        first == (Err(WireFault::Close), Err(WireFault::Send), true, 3),
        second == Ok((Err(WireFault::Send), 4)),
    ))
}

#[test]
fn calls_that_fail_are_counted(rt: HostRuntime) -> Result<(), Fail> {
    assert_eq!(rt; are_counted(rt)?, (true, true));
    Ok(())
}

fn send_to(wire: &mut UdpWire<HostRuntime>, from_port: u16, to: Endpoint) -> Result<(), WireFault> {
    wire.send(&Out {
        from_port,
        to,
        dgram: encode_ack(1),
    })
}

// The results of sends to port 0, to all hosts at once, and to a port that is taken, and how many calls had failed before
// the last of them and after it.
fn send_to_each(
    wire: &mut UdpWire<HostRuntime>,
    taken: u16,
) -> Result<([Result<(), WireFault>; 3], u64, u64), WireFault> {
    let from_port = wire.open()?;
    let everyone = Endpoint {
        host: u32::MAX,
        port: taken,
    };
    let to_0 = send_to(wire, from_port, loopback(0));
    let to_everyone = send_to(wire, from_port, everyone);
    let before = wire.failures();
    let to_taken = send_to(wire, from_port, loopback(taken));
    Ok(([to_0, to_everyone, to_taken], before, wire.failures()))
}

// Whether the first two fail, and both are counted.
fn are_refused(rt: HostRuntime) -> Result<bool, Fail> {
    let (_other, taken) = listening(rt)?;
    let mut wire = UdpWire::new(rt);
    let sent = send_to_each(&mut wire, taken);
    Ok(sent == Ok(([Err(WireFault::Send), Err(WireFault::Send), Ok(())], 2, 2)))
}

// No datagram goes to port 0, and none to all hosts at once without leave.
#[test]
fn addresses_that_the_system_refuses(rt: HostRuntime) -> Result<(), Fail> {
    assert!(rt; are_refused(rt)?);
    Ok(())
}

// Sends three datagrams to a port: one that is too long for a packet, an empty one, and one of the greatest length.
// Returns the port that they come from.
fn send_from(peer: &UdpSocket, port: u16) -> Result<u16, Fail> {
    let target = SocketAddr::from((Ipv4Addr::LOCALHOST, port));
    peer.send_to(&[7; 600], target)?;
    peer.send_to(&[], target)?;
    peer.send_to(&[8; 516], target)?;
    Ok(peer.local_addr()?.port())
}

fn send_three(rt: HostRuntime, port: u16) -> Result<Endpoint, Fail> {
    let peer = UdpSocket::bind(&rt, SocketAddr::from((Ipv4Addr::LOCALHOST, 0)))?;
    Ok(loopback(send_from(&peer, port)?))
}

// Whether three reads of a port return these datagrams.
fn reads_three(
    wire: &mut UdpWire<HostRuntime>,
    port: u16,
    from: Endpoint,
) -> Result<bool, WireFault> {
    let mut buffer = [0; RECEIVE_SIZE];
    let long = wire.receive(port, &mut buffer)? == Some((517, from)) && buffer == [7; RECEIVE_SIZE];
    let empty = wire.receive(port, &mut buffer)? == Some((0, from));
    let greatest = wire.receive(port, &mut buffer)? == Some((516, from));
    Ok(long && empty && greatest && buffer.starts_with(&[8; 516]))
}

// Whether a port reads the datagrams that are sent to it.
fn reads_what_is_sent(
    rt: HostRuntime,
    wire: &mut UdpWire<HostRuntime>,
    port: u16,
) -> Result<bool, Fail> {
    let from = send_three(rt, port)?;
    Ok(reads_three(wire, port, from)?)
}

fn reads_at_a_new_port(rt: HostRuntime) -> Result<bool, Fail> {
    let (mut wire, port) = listening(rt)?;
    reads_what_is_sent(rt, &mut wire, port)
}

#[test]
fn long_and_empty_datagrams(rt: HostRuntime) -> Result<(), Fail> {
    assert!(rt; reads_at_a_new_port(rt)?);
    Ok(())
}

// The ports that are ready at a wait for a moment that is past, and at one for thirty milliseconds; and whether that
// moment has come then.
fn wait_twice(wire: &mut UdpWire<HostRuntime>, port: u16) -> (Option<u16>, Option<u16>, bool) {
    let first = wire.wait(0, Some(0));
    let until = first.time.saturating_add(30);
    let second = wire.wait(port, Some(until));
    (first.port, second.port, second.time >= until)
}

fn new_wire_waits_twice(rt: HostRuntime) -> Result<(Option<u16>, Option<u16>, bool), Fail> {
    let (mut wire, port) = listening(rt)?;
    Ok(wait_twice(&mut wire, port))
}

#[test]
fn a_wait_ends_at_its_moment(rt: HostRuntime) -> Result<(), Fail> {
    assert_eq!(rt; new_wire_waits_twice(rt)?, (None, None, true));
    Ok(())
}
