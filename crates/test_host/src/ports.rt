//! Ports that other programs have.

// The port that a wire opens next.
use archive_sockets::UdpWire;
use archive_wire::{Wire, WireFault};

// A port that was open and is closed again, unused.
pub(crate) fn past_port(wire: &mut UdpWire<HostRuntime>) -> Result<u16, WireFault> {
    let port = wire.open()?;
    wire.close(port)?;
    Ok(port)
}

// A port that a wire opens while another socket has this one. If that fails, a socket of another program has it.
fn open_beside(
    rt: HostRuntime,
    wire: &mut UdpWire<HostRuntime>,
    taken: u16,
) -> Result<u16, WireFault> {
    let _other = UdpWire::listen(rt, taken);
    wire.open()
}

// Whether a port that was closed unused is the next one, and whether it is also when it is another socket's; and how many
// calls failed.
fn open_again(
    rt: HostRuntime,
    wire: &mut UdpWire<HostRuntime>,
) -> Result<(bool, bool, u64), WireFault> {
    let unused = past_port(wire)?;
    let again = past_port(wire)?;
    let port = open_beside(rt, wire, unused)?;
    Ok((again == unused, port == unused, wire.failures()))
}

// A port that was closed unused is the next one. When it is another socket's by then, the wire opens another, and that
// is no failure.
#[test]
fn a_port_in_use_is_passed_over(rt: HostRuntime) {
    let mut wire = UdpWire::new(rt);
    let opened = open_again(rt, &mut wire);
    assert_eq!(rt; opened, Ok((true, false, 0)));
}
