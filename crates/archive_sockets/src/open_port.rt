//! A port that is open, and its socket.

ghost use Rattle.std.specs.Prelude.{◌≡◌, ◌≤◌, true, Some, IfOk, OnErr, IfSome, IfNone};
ghost use Rattle.std.specs.Option.{option_or};
ghost use Rattle.archive_sockets.specs.declared.unread.Unread.TheVariants.{Nothing, Perhaps, Reported};
ghost use Rattle.archive_sockets.specs.Arrivals.{is_reported, may_have_more, marked_read, takes_from};

use crate::unread::Unread;
use archive_wire::RECEIVE_SIZE;
use mio::net::UdpSocket;
use mio::{Interest, Poll, Token};
use std::io;
use std::io::ErrorKind;
use std::net::{Ipv4Addr, Net, SocketAddr};
use tftp_packet::{Endpoint, Out};

// How many datagrams of other hosts are dropped in one read, at most.
const OTHERS: u32 = 16;

/// A port that is open, and its socket.
#[derive(Drop)]
pub(crate) struct OpenPort {
    port: u16,
    socket: UdpSocket,
    unread: Unread,
    /// The only host whose datagrams are handed out, once there is one.
    host: Option<u32>,
    /// Whether a datagram was sent from here or received.
    used: bool,
}

impl OpenPort {
    /// Opens a port at this address of this host, 0 for every address, and has the poll report what arrives there.
    ///
    /// # Errors
    ///
    /// Those of the system. The port is then not open.
    pub(crate) fn open<N: Net>(net: &N, poll: &Poll, at: Endpoint) -> io::Result<Self>
        ensures { IfOk result (λ o. o.port ≡ at.port) }
    {
        let port = at.port;
        let address = SocketAddr::from((Ipv4Addr::from_bits(at.host), port));
        let mut socket = UdpSocket::bind(net, address)?;
        let token = Token(port as usize);
        poll.registry()
            .register(&mut socket, token, Interest::READABLE)?;
        Ok(OpenPort {
            port,
            socket,
            unread: Unread::Nothing,
            host: None,
            used: false,
        })
    }

    /// The number of the port.
    pub(crate) fn port(&self) -> u16
        ensures { result ≡ self.now.port }
    {
        self.port
    }

    /// Whether a datagram was reported and none has been read since.
    pub(crate) fn is_ready(&self) -> bool
        ensures { result ≡ is_reported self.now.unread }
    {
        match self.unread {
            Unread::Reported => true,
            Unread::Nothing | Unread::Perhaps => false,
        }
    }

    /// Notes that a datagram was reported.
    pub(crate) fn mark(&mut self)
        ensures { self.new ≡ record self.old { unread = Reported } }
    {
        self.unread = Unread::Reported;
    }

    /// Whether there may be a datagram that was not read.
    pub(crate) fn may_have_more(&self) -> bool
        ensures { result ≡ may_have_more self.now.unread }
    {
        match self.unread {
            Unread::Reported | Unread::Perhaps => true,
            Unread::Nothing => false,
        }
    }

    /// Marks the port as ready again if it was read.
    pub(crate) fn mark_read(&mut self)
        ensures { self.new ≡ marked_read self.old }
    {
        if let Unread::Perhaps = self.unread {
            self.unread = Unread::Reported;
        }
    }

    // Reads the oldest unread datagram, without waiting.
    fn read_one(&mut self, buffer: &mut [u8; RECEIVE_SIZE]) -> io::Result<Option<(usize, Endpoint)>>
        ensures count { IfOk result (λ got. IfSome got (λ g. g.0 ≤ RECEIVE_SIZE)) }
        ensures port { self.new.port ≡ self.old.port }
        ensures host { self.new.host ≡ self.old.host }
        ensures came { IfOk result (λ got. IfSome got (λ _. self.new.unread ≡ Perhaps)) }
        ensures nothing { IfOk result (λ got. IfNone got (self.new.unread ≡ Nothing)) }
        ensures failed { OnErr result (self.new.unread ≡ self.old.unread) }
    {
        match self.socket.recv_from(&mut buffer[..]) {
            Ok((count, SocketAddr::V4(from))) => {
                self.unread = Unread::Perhaps;
                self.used = true;
                let host = from.ip().to_bits();
                let port = from.port();
                Ok(Some((count, Endpoint { host, port })))
            }
            Ok(_) => Err(io::Error::from(ErrorKind::InvalidData)),
            Err(e) => {
                if e.kind() == ErrorKind::WouldBlock {
                    self.unread = Unread::Nothing;
                    Ok(None)
                } else {
                    Err(e)
                }
            }
        }
    }

    /// Reads the oldest unread datagram of a host that this port takes from, without waiting. Returns how many of its
    /// bytes are in the buffer and the endpoint that it came from, or `None` if there is none, or there are too many
    /// others before it.
    ///
    /// # Errors
    ///
    /// Those of the system. A later call may return a datagram.
    pub(crate) fn read(
        &mut self,
        buffer: &mut [u8; RECEIVE_SIZE],
    ) -> io::Result<Option<(usize, Endpoint)>>
        ensures count { IfOk result (λ got. IfSome got (λ g. g.0 ≤ RECEIVE_SIZE)) }
        ensures port { self.new.port ≡ self.old.port }
        ensures host { self.new.host ≡ self.old.host }
        ensures taken { IfOk result (λ got. IfSome got (λ g. takes_from self.old.host g.1.host ≡ true)) }
    {
        for _other in 0..OTHERS {
            match self.read_one(buffer)? {
                Some((count, from)) if self.takes_from(from.host) => {
                    return Ok(Some((count, from)));
                }
                Some(_) => {}
                None => return Ok(None),
            }
        }
        Ok(None)
    }

    /// Whether a datagram was sent from here or received.
    pub(crate) fn is_used(&self) -> bool
        ensures { result ≡ self.now.used }
    {
        self.used
    }

    /// Notes that a datagram is sent to this host: from now on only datagrams from there are handed out, unless another
    /// host was noted before.
    pub(crate) fn keep_to(&mut self, host: u32)
        ensures { self.new ≡ record self.old { host = option_or self.old.host (Some host); used = true } }
    {
        self.used = true;
        self.host = self.host.or(Some(host));
    }

    // Whether datagrams from a host are handed out.
    fn takes_from(&self, host: u32) -> bool
        ensures { result ≡ takes_from self.now.host host }
    {
        match self.host {
            Some(only) => only == host,
            None => true,
        }
    }

    /// Sends a datagram from this port. Returns whether the system took it whole.
    pub(crate) fn send(&self, out: &Out) -> bool {
        let bytes = out.dgram.bytes();
        let target = SocketAddr::from((Ipv4Addr::from_bits(out.to.host), out.to.port));
        match self.socket.send_to(bytes, target) {
            Ok(count) => count == bytes.len(),
            Err(_) => false,
        }
    }
}
