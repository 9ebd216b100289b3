//! A wire over UDP sockets.

ghost use Rattle.std.specs.Prelude.{◌≡◌, ◌==◌, ◌≤◌, ◌<◌, ◌+◌, ◌-◌, ◌^◌, true, false, Some, None, is_ok, IfOk, IfSome, IfErr, OnErr, if◌then◌else◌};
ghost use Rattle.archive_sockets.specs.Arrivals.{one_may_have_more, ready_above, ready_least, settled_at, Closes};
ghost use Rattle.std.specs.Option.{option_or};
ghost use Rattle.archive_sockets.specs.Returning.{given_back};
ghost use Rattle.byte_output.specs.Failures.{Rises};
ghost use Rattle.archive_sockets.specs.declared.udp_wire.TheConstants.{REREAD_EVERY};

use crate::open_port::OpenPort;
use crate::open_ports::OpenPorts;
use crate::port_deck::{FIRST, LAST, PortDeck};
use crate::watch::Watch;
use archive_wire::{RECEIVE_SIZE, Ready, ReadyWire, Wire, WireFault};
use std::io;
use std::io::ErrorKind;
use std::net::Net;
use std::random::RandomSource;
use std::time::Clock;
use tftp_packet::{Endpoint, Out};

// How long `receive` waits at most, in milliseconds.
const WAIT: u64 = 5;

// How many times `receive` polls the system in that time, at most. Each arrival at another port ends a poll, and the
// wait might never end if the system's clock or reports failed.
const POLLS: u32 = 1000;

// After every `REREAD_EVERY`th poll of `wait`, the ports that were read are read again.
const REREAD_EVERY: u8 = 16;

/// A wire over UDP and IPv4, whose ports are open at every address of this host, or at one. `receive` waits 5 ms at most, and not
/// at all at the port that `wait` has just returned. For `wait`, a port that was just read is ready again only if no
/// other is, or after every sixteenth poll of the system, and it may turn out to have nothing. The clock is in
/// milliseconds. The wire has no ghost calls.
///
/// Once a datagram was sent from a port, other than the one that listens, `receive` returns only datagrams from the
/// host that it was sent to. The others are dropped.
#[derive(Drop)]
pub struct UdpWire<R: Net + Clock + RandomSource + AllocGlobal + Copy> {
    rt: R,
    // The address of this host at which ports are opened, 0 for every address.
    host: u32,
    watch: Option<Watch>,
    ports: OpenPorts,
    // The ports that are opened for transfers: from the first to the last.
    first: u16,
    last: u16,
    deck: Option<PortDeck>,
    given: Option<u16>,
    listens: bool,
    // The number of the last poll of `wait`, modulo `REREAD_EVERY`.
    poll_number: u8,
    // The time just before that poll, if since then each port that may have a datagram was to be read: the process may be
    // stopped between the poll and the clock, and what arrives then was not seen.
    polled: Option<u64>,
    time: u64,
    failures: u64,
    // What the system said of the port that `open` opened last without success.
    error: Option<io::Error>,
    ghost numbered: { poll_number < REREAD_EVERY },
    ghost positive: { 1 ≤ first },
    ghost ranged: { first < last },
}

// An unpredictable seed, if the system has a source of random bytes, and otherwise one that differs from one
// start of the program to the next.
fn seed<R: Clock + RandomSource>(rt: &R) -> [u8; 32] {
    let mut seed = [0; 32];
    if rt.fill_bytes(&mut seed).is_err() {
        let nanos = match rt.since_1970() {
            Ok(time) => time.subsec_nanos(),
            Err(_) => 0,
        };
        seed[..4].copy_from_slice(&nanos.to_le_bytes());
    }
    seed
}

impl<R: Net + Clock + RandomSource + AllocGlobal + Copy> UdpWire<R> {
    /// Returns a wire without ports, which opens them at every address of this host. Does not allocate.
    pub fn new(rt: R) -> Self
        ensures failures { result.failures ≡ 0 }
        ensures host { result.host ≡ 0 }
    {
        UdpWire {
            rt,
            host: 0,
            watch: None,
            ports: OpenPorts::new(rt.alloc()),
            first: FIRST,
            last: LAST,
            deck: None,
            given: None,
            listens: false,
            poll_number: 0,
            polled: None,
            time: 0,
            failures: 0,
            error: None,
        }
    }

    /// What the system said of the call of `open` that failed last, `None` if none has.
    pub fn last_error(&self) -> Option<io::Error>
        ensures { result ≡ self.now.error }
    {
        self.error
    }

    /// Returns a wire that has this port, at every address of this host. At port 0 the system chooses one, which no
    /// method names.
    ///
    /// # Errors
    ///
    /// `Open` if the port cannot be opened.
    pub fn listen(rt: R, port: u16) -> Result<Self, WireFault>
        ensures failures { IfOk result (λ wire. wire.failures ≡ 0) }
        ensures host { IfOk result (λ wire. wire.host ≡ 0) }
        ensures fault { IfErr result (λ e. e ≡ WireFault.Open) }
    {
        match Self::listen_at(rt, Endpoint { host: 0, port }) {
            Ok(wire) => Ok(wire),
            Err(_) => Err(WireFault::Open),
        }
    }

    /// Returns a wire that has the port of `at`, at that address of this host, 0 for every address. Later ports are opened
    /// at the same address.
    ///
    /// # Errors
    ///
    /// What the system said if the port cannot be opened, also if this host does not have the address.
    pub fn listen_at(rt: R, at: Endpoint) -> io::Result<Self>
        ensures failures { IfOk result (λ wire. wire.failures ≡ 0) }
        ensures host { IfOk result (λ wire. wire.host ≡ at.host) }
    {
        let mut wire = Self::new(rt);
        wire.host = at.host;
        wire.open_port(at.port)?;
        wire.listens = true;
        Ok(wire)
    }

    /// Has the ports that are opened for transfers from now on be those from `first` to `last`, in place of those for private
    /// use (RFC 6335 section 6).
    pub fn use_ports(&mut self, first: u16, last: u16)
        requires positive { 1 ≤ first }
        requires range { first < last }
        ensures first { self.new.first ≡ first }
        ensures last { self.new.last ≡ last }
        ensures deck { self.new.deck ≡ None }
        ensures host { self.new.host ≡ self.old.host }
        ensures ports { self.new.ports ≡ self.old.ports }
        ensures failures { self.new.failures ≡ self.old.failures }
    {
        self.first = first;
        self.last = last;
        self.deck = None;
    }

    // Counts a failure.
    fn count_failure(&mut self)
        ensures failed { Rises self.old.failures self.new.failures }
        ensures ports { self.new.ports ≡ self.old.ports }
        ensures deck { self.new.deck ≡ self.old.deck }
        ensures given { self.new.given ≡ self.old.given }
    {
        if self.failures < u64::MAX {
            self.failures += 1;
        }
    }

    // Opens a port.
    fn open_port(&mut self, port: u16) -> io::Result<()>
        ensures failures { self.new.failures ≡ self.old.failures }
        ensures host { self.new.host ≡ self.old.host }
    {
        if self.watch.is_none() {
            self.watch = Some(Watch::new(&self.rt, self.rt.alloc())?);
        }
        let Some(watch) = &self.watch else {
            return Err(io::Error::from(ErrorKind::NotConnected));
        };
        let host = self.host;
        let open = watch.open(&self.rt, Endpoint { host, port })?;
        match self.ports.push(open) {
            Ok(()) => Ok(()),
            Err(_) => Err(io::Error::from(ErrorKind::OutOfMemory)),
        }
    }

    // The next port to be tried.
    fn next_port(&mut self) -> Option<u16>
        ensures failures { self.new.failures ≡ self.old.failures }
    {
        if self.deck.is_none() {
            let seed = seed(&self.rt);
            self.deck = PortDeck::new(self.rt.alloc(), seed, self.first, self.last).ok();
        }
        match &mut self.deck {
            Some(deck) => Some(deck.take()),
            None => None,
        }
    }

    // Opens the next port that no other socket has. Any error other than `AddrInUse` ends the search.
    fn open_next(&mut self) -> io::Result<u16>
        ensures failures { self.new.failures ≡ self.old.failures }
    {
        for _ in 0..=self.last - self.first {
            let Some(port) = self.next_port() else {
                return Err(io::Error::from(ErrorKind::OutOfMemory));
            };
            match self.open_port(port) {
                Ok(()) => return Ok(port),
                Err(e) => {
                    if e.kind() != ErrorKind::AddrInUse {
                        return Err(e);
                    }
                }
            }
        }
        Err(io::Error::from(ErrorKind::AddrInUse))
    }

    // Gives a port back that is about to be closed, if it was not used.
    fn give_back(&mut self, port: u16)
        ensures failures { self.new.failures ≡ self.old.failures }
        ensures ports { self.new.ports ≡ self.old.ports }
        ensures deck { self.new.deck ≡ given_back port self.old.ports.ports.items self.old.deck }
    {
        if let Some(deck) = &mut self.deck {
            if self.ports.is_unused(port) {
                deck.give_back(port);
            }
        }
    }

    // The time of the clock, or the last known time if the system does not report it.
    fn now(&mut self) -> u64
        ensures failures { self.new.failures ≡ self.old.failures }
    {
        if let Ok(time) = self.rt.monotonic() {
            let millis = u64::try_from(time.as_millis()).unwrap_or(u64::MAX);
            self.time = self.time.max(millis);
        }
        self.time
    }

    // Polls the system for arrivals, for at most `millis` milliseconds. Returns whether the poll was made.
    fn poll(&mut self, millis: Option<u64>) -> bool
        ensures failures { self.new.failures ≡ self.old.failures }
    {
        match &mut self.watch {
            Some(watch) => watch.poll(&mut self.ports, millis),
            None => true,
        }
    }

    // Reads a port once, without waiting.
    fn read(
        &mut self,
        port: u16,
        buffer: &mut [u8; RECEIVE_SIZE],
    ) -> io::Result<Option<(usize, Endpoint)>>
        ensures count { IfOk result (λ got. IfSome got (λ g. g.0 ≤ RECEIVE_SIZE)) }
        ensures failures { self.new.failures ≡ self.old.failures }
    {
        match self.ports.get_mut(port) {
            Some(open) => open.read(buffer),
            None => Err(io::Error::from(ErrorKind::NotConnected)),
        }
    }

    // Reads a port until a datagram arrives or the wait is over.
    fn read_within(
        &mut self,
        port: u16,
        buffer: &mut [u8; RECEIVE_SIZE],
    ) -> io::Result<Option<(usize, Endpoint)>>
        ensures count { IfOk result (λ got. IfSome got (λ g. g.0 ≤ RECEIVE_SIZE)) }
        ensures failures { self.new.failures ≡ self.old.failures }
    {
        let end = self.now().saturating_add(WAIT);
        for _ in 0..POLLS {
            let got = self.read(port, buffer)?;
            let left = end.saturating_sub(self.now());
            if got.is_some() || left == 0 {
                return Ok(got);
            }
            self.poll(Some(left));
        }
        Ok(None)
    }

    // How many milliseconds to wait for the moment `until`: none if a datagram may be left to read.
    fn millis_left(&mut self, until: Option<u64>) -> Option<u64>
        ensures failures { self.new.failures ≡ self.old.failures }
        ensures at_once { one_may_have_more self.old.ports.ports.items ≡ true → result ≡ Some 0 }
        ensures without_end { one_may_have_more self.old.ports.ports.items ≡ false → until ≡ None → result ≡ None }
    {
        if self.ports.may_have_more() {
            return Some(0);
        }
        let now = self.now();
        until.map(|moment| moment.saturating_sub(now))
    }

    // Polls the system for ready ports. A port that was read mostly has no second datagram, so it is read again only if no
    // other port is ready, or after every sixteenth poll, so that a datagram there is not held back for long.
    fn poll_for_ready(&mut self, until: Option<u64>)
        ensures failures { self.new.failures ≡ self.old.failures }
    {
        let millis = self.millis_left(until);
        let polled = self.now();
        let is_made = self.poll(millis);
        self.poll_number = (self.poll_number + 1) % REREAD_EVERY;
        self.polled = None;
        if self.poll_number == 0 || self.ports.ready_least().is_none() {
            self.ports.mark_read();
            if is_made {
                self.polled = Some(polled);
            }
        }
    }

    // The next ready port, and the time up to which all that arrived was handed out, if that is known now. The system is
    // polled once no port above `after` is ready, however busy the ports are.
    fn next_ready(&mut self, after: u16, until: Option<u64>) -> (Option<u16>, Option<u64>)
        ensures failures { self.new.failures ≡ self.old.failures }
        ensures settled { result.1 ≡ settled_at (option_or (ready_above after self.old.ports.ports.items) (ready_least self.old.ports.ports.items)) result.0 self.old.polled self.new.polled }
    {
        if let Some(port) = self.ports.ready_above(after) {
            return (Some(port), None);
        }
        let settled = match self.ports.ready_least() {
            Some(_) => None,
            None => self.polled,
        };
        self.poll_for_ready(until);
        match self.ports.ready_above(after).or(self.ports.ready_least()) {
            Some(port) => (Some(port), settled),
            None => (None, self.polled),
        }
    }
}

impl<R: Net + Clock + RandomSource + AllocGlobal + Copy> Wire for UdpWire<R> {
    ghost calls = { λ _. None };

    ghost failed = { λ w. w.failures };

    fn open(&mut self) -> Result<u16, WireFault> {
        match self.open_next() {
            Ok(port) => Ok(port),
            Err(error) => {
                self.error = Some(error);
                self.count_failure();
                Err(WireFault::Open)
            }
        }
    }

    fn close(&mut self, port: u16) -> Result<(), WireFault>
        // A port that was not used is the next one again.
        ensures deck { self.new.deck ≡ given_back port self.old.ports.ports.items self.old.deck }
        // It fails only if the port was not open.
        ensures closes { Closes port (is_ok result) self.old.ports.ports.items self.new.ports.ports.items }
        ensures fault { IfErr result (λ e. e ≡ WireFault.Close) }
        ensures failed { OnErr result (Rises self.old.failures self.new.failures) }
    {
        self.give_back(port);
        if self.ports.close(port) {
            Ok(())
        } else {
            self.count_failure();
            Err(WireFault::Close)
        }
    }

    fn receive(
        &mut self,
        port: u16,
        buffer: &mut [u8; RECEIVE_SIZE],
    ) -> Result<Option<(usize, Endpoint)>, WireFault>
        // It does not wait at the port that `wait` gave, once.
        ensures forgets { self.new.given ≡ None }
        ensures count { IfOk result (λ got. IfSome got (λ g. g.0 ≤ RECEIVE_SIZE)) }
        ensures fault { IfErr result (λ e. e ≡ WireFault.Receive) }
        ensures failed { OnErr result (Rises self.old.failures self.new.failures) }
    {
        let got = if self.given == Some(port) {
            self.read(port, buffer)
        } else {
            self.read_within(port, buffer)
        };
        self.given = None;
        match got {
            Ok(got) => Ok(got),
            Err(_) => {
                self.count_failure();
                Err(WireFault::Receive)
            }
        }
    }

    fn send(&mut self, out: &Out) -> Result<(), WireFault> {
        let listens = self.listens && Some(out.from_port) == self.ports.first();
        let sent = match self.ports.get_mut(out.from_port) {
            Some(open) => {
                if !listens {
                    open.keep_to(out.to.host);
                }
                open.send(out)
            }
            None => false,
        };
        if sent {
            Ok(())
        } else {
            self.count_failure();
            Err(WireFault::Send)
        }
    }

    fn failures(&self) -> u64 {
        self.failures
    }
}

impl<R: Net + Clock + RandomSource + AllocGlobal + Copy> ReadyWire for UdpWire<R> {
    fn wait(&mut self, after: u16, until: Option<u64>) -> Ready {
        let (port, settled) = self.next_ready(after, until);
        self.given = port;
        let time = self.now();
        Ready {
            port,
            time,
            settled,
        }
    }
}
