//! A wire in memory, for tests: it delivers what was put into it, and has a ghost log.

ghost use Rattle.std.specs.Prelude.{◌≡◌, ◌≢◌, ◌==◌, ◌≤◌, [], ◌∷◌, length, map, drop, true, Some, OnOk, OnErr, IfOk, IfErr, IfSome, is_ok, if◌then◌else◌};
ghost use Rattle.std.specs.List.{position};
ghost use Rattle.std.specs.Option.{option_map};
ghost use Rattle.byte_output.specs.Failures.{Rises};
ghost use Rattle.archive_memory.specs.MemoryWires.{entry_of, entries_of, waiting_of, arrives_at, counts_call, rises, notes, calls_of, SameButLog, first_in, port_taken, takes_port, first_to, without_first, receipt, takes_arrival, next_ready, settled_by, time_after};
ghost use Rattle.archive_wire.specs.Wire.{lesser, Grows, opened, closed, sent, port_opened, was_done, came, received, quiet, failed, waited};

use crate::arrival::Arrival;
use crate::entry::Entry;
use archive_wire::{RECEIVE_SIZE, Ready, ReadyWire, Wire, WireFault};
use std::alloc::{AllocError, Allocator, Global};
use std::marker::Model;
use tftp_packet::{Endpoint, Out};
use tws_file::Bytes;

/// A wire in memory. It delivers the datagrams that were put into it, sends nothing anywhere, and logs all calls.
#[derive(Drop)]
#[derive_where(Debug)]
pub struct MemoryWire<A: Allocator = Global> {
    opens: Vec<u16, A>,
    inbox: Vec<Arrival<A>, A>,
    log: Vec<Entry<A>, A>,
    telling: bool,
    failures: u64,
    fails_in: u64,
    time: u64,
    settled: Option<u64>,
}

impl<A: Allocator> Model for MemoryWire<A> {
    ghost use Rattle.archive_memory.specs.MemoryWires.{Memory, memory_of};

    ghost Value = { Memory };

    ghost view = { memory_of };
}

impl<A: Allocator + Copy> MemoryWire<A> {
    /// Returns a wire whose `open` returns these ports, in order, and at which nothing has arrived. Its clock is at 0.
    pub fn new(alloc: A, opens: Vec<u16, A>) -> Self
        ensures { result ≡ record { opens = opens.items; inbox = []; log = []; telling = true; failures = 0; fails_in = 0; time = 0; settled = None } }
    {
        MemoryWire {
            opens,
            inbox: Vec::new(alloc),
            log: Vec::new(alloc),
            telling: true,
            failures: 0,
            fails_in: 0,
            time: 0,
            settled: None,
        }
    }

    /// Puts a datagram of at most `RECEIVE_SIZE` bytes at a port. `receive` returns it after those that arrived at the
    /// port before it.
    ///
    /// # Errors
    ///
    /// Out of memory: nothing changes.
    pub fn arrive(
        &mut self,
        alloc: A,
        port: u16,
        from: Endpoint,
        bytes: &[u8],
    ) -> Result<(), AllocError>
        requires { length bytes.now ≤ RECEIVE_SIZE }
        ensures ok { OnOk result (self.new ≡ arrives_at port from bytes.now self.old) }
        ensures err { OnErr result (self.new ≡ self.old) }
    {
        let bytes = Bytes::of(Vec::from_slice(alloc, bytes)?);
        self.inbox.push(Arrival { port, from, bytes })?;
        Ok(())
    }

    /// Makes the `n`-th call from now fail, counted from 1 over `open`, `close`, `receive` and `send`. That call takes
    /// no port and no datagram. This replaces what an earlier call of `fail_at` asked for; with 0 no call fails.
    pub fn fail_at(&mut self, n: u64)
        ensures { self.new ≡ record self.old { fails_in = n } }
    {
        self.fails_in = n;
    }

    /// Sets the clock, in milliseconds.
    pub fn set_time(&mut self, time: u64)
        ensures { self.new ≡ record self.old { time = time } }
    {
        self.time = time;
    }

    /// Sets what `wait` reports as settled while datagrams wait.
    pub fn set_settled(&mut self, settled: Option<u64>)
        ensures { self.new ≡ record self.old { settled = settled } }
    {
        self.settled = settled;
    }

    /// An entry for each call, in order, as long as the wire is `telling`.
    pub fn log(&self) -> &[Entry<A>]
        ensures { entries_of result.now ≡ self.now.log }
    {
        self.log.as_slice()
    }

    /// Whether the log has an entry for each call. It stops once there is no memory for an entry.
    pub fn telling(&self) -> bool
        ensures { result ≡ self.now.telling }
    {
        self.telling
    }
}

// Takes the next port to be opened from the list.
fn take_next<A: Allocator>(opens: &mut Vec<u16, A>) -> Option<u16>
    ensures port { result ≡ first_in opens.old.items }
    ensures left { opens.new.items ≡ drop 1 opens.old.items }
{
    if opens.is_empty() {
        return None;
    }
    Some(opens.remove(0))
}

// The place of the oldest datagram at a port.
fn first_at<A: Allocator>(inbox: &[Arrival<A>], port: u16) -> Option<usize>
    ensures { result ≡ position (λ a. a.port == port) inbox.now }
{
    inbox.iter().position(|arrival| arrival.port == port)
}

// Takes the oldest datagram at a port from the inbox.
fn take_first<A: Allocator>(inbox: &mut Vec<Arrival<A>, A>, port: u16) -> Option<Arrival<A>>
    ensures first { option_map waiting_of result ≡ first_to port (map waiting_of inbox.old.items) }
    ensures left { map waiting_of inbox.new.items ≡ without_first port (map waiting_of inbox.old.items) }
{
    let Some(i) = first_at(inbox.as_slice(), port) else {
        return None;
    };
    Some(inbox.remove(i))
}

impl<A: Allocator> MemoryWire<A> {
    // Counts a call. Returns whether it is to fail.
    fn count_call(&mut self) -> bool
        ensures result { result ≡ (self.old.fails_in == 1) }
        ensures left { self.new ≡ counts_call self.old }
    {
        let failing = self.fails_in == 1;
        if self.fails_in > 0 {
            self.fails_in -= 1;
        }
        failing
    }

    // Counts a failure.
    fn count_failure(&mut self)
        ensures { self.new ≡ rises self.old }
    {
        if self.failures < u64::MAX {
            self.failures += 1;
        }
    }

    // Logs a call. Returns false, and has no log from then on, if there is no memory for the entry.
    fn note(&mut self, entry: Entry<A>) -> bool
        ensures { self.new ≡ notes result (entry_of entry) self.old }
    {
        let done = self.log.push(entry).is_ok();
        if !done {
            self.telling = false;
        }
        done
    }

    // Ends a `receive` that found nothing.
    fn give_none(&mut self, port: u16) -> Result<Option<(usize, Endpoint)>, WireFault>
        ensures calls { Grows (calls_of self.old) (calls_of self.new) ((if is_ok result then quiet port else failed port) ∷ []) }
        ensures none { IfOk result (λ got. got ≡ None) }
        ensures reported { self.new.telling ≡ true → is_ok result ≡ true }
        ensures left { SameButLog self.old self.new }
        ensures steady { OnOk result (self.new.failures ≡ self.old.failures) }
        ensures fault { IfErr result (λ e. e ≡ WireFault.Receive) }
        ensures failed { OnErr result (Rises self.old.failures self.new.failures) }
    {
        if self.note(Entry::Quiet(port)) {
            return Ok(None);
        }
        self.count_failure();
        Err(WireFault::Receive)
    }

    // Hands a datagram to the caller of `receive`.
    fn give(
        &mut self,
        port: u16,
        arrival: Arrival<A>,
        buffer: &mut [u8; RECEIVE_SIZE],
    ) -> Result<Option<(usize, Endpoint)>, WireFault>
        ensures calls { Grows (calls_of self.old) (calls_of self.new) (received port result buffer.new ∷ []) }
        ensures given { OnOk result (received port result buffer.new ≡ came port arrival.from arrival.bytes) }
        ensures reported { self.new.telling ≡ true → is_ok result ≡ true }
        ensures left { SameButLog self.old self.new }
        ensures steady { OnOk result (self.new.failures ≡ self.old.failures) }
        ensures count { IfOk result (λ got. IfSome got (λ g. g.0 ≤ RECEIVE_SIZE)) }
        ensures fault { IfErr result (λ e. e ≡ WireFault.Receive) }
        ensures failed { OnErr result (Rises self.old.failures self.new.failures) }
    {
        let Arrival { from, bytes, .. } = arrival;
        let count = bytes.len();
        buffer[..count].copy_from_slice(bytes.as_slice());
        if self.note(Entry::Came { port, from, bytes }) {
            return Ok(Some((count, from)));
        }
        self.count_failure();
        Err(WireFault::Receive)
    }
}

impl<A: Allocator> Wire for MemoryWire<A> {
    ghost use Rattle.archive_memory.specs.MemoryWires.{calls_of};

    ghost calls = { calls_of };

    ghost failed = { λ w. w.failures };

    fn open(&mut self) -> Result<u16, WireFault>
        ensures calls { Grows (calls_of self.old) (calls_of self.new) (opened (port_opened result) ∷ []) }
        ensures port { IfOk result (λ port. port_taken self.old ≡ Some port) }
        ensures reported { self.new.telling ≡ true → port_opened result ≡ port_taken self.old }
        ensures left { SameButLog (takes_port self.old) self.new }
        ensures fault { IfErr result (λ e. e ≡ WireFault.Open) }
        ensures failed { OnErr result (Rises self.old.failures self.new.failures) }
        ensures steady { OnOk result (self.new.failures ≡ self.old.failures) }
    {
        let port = if self.count_call() {
            None
        } else {
            take_next(&mut self.opens)
        };
        if self.note(Entry::Opened(port)) {
            if let Some(port) = port {
                return Ok(port);
            }
        }
        self.count_failure();
        Err(WireFault::Open)
    }

    fn close(&mut self, port: u16) -> Result<(), WireFault>
        ensures calls { Grows (calls_of self.old) (calls_of self.new) (closed port (was_done result) ∷ []) }
        ensures done { OnOk result (self.old.fails_in ≢ 1) }
        ensures reported { self.new.telling ≡ true → self.old.fails_in ≢ 1 → is_ok result ≡ true }
        ensures left { SameButLog (counts_call self.old) self.new }
        ensures fault { IfErr result (λ e. e ≡ WireFault.Close) }
        ensures failed { OnErr result (Rises self.old.failures self.new.failures) }
        ensures steady { OnOk result (self.new.failures ≡ self.old.failures) }
    {
        let ok = !self.count_call();
        if self.note(Entry::Closed(port, ok)) && ok {
            return Ok(());
        }
        self.count_failure();
        Err(WireFault::Close)
    }

    fn receive(
        &mut self,
        port: u16,
        buffer: &mut [u8; RECEIVE_SIZE],
    ) -> Result<Option<(usize, Endpoint)>, WireFault>
        ensures calls { Grows (calls_of self.old) (calls_of self.new) (received port result buffer.new ∷ []) }
        ensures given { OnOk result (received port result buffer.new ≡ receipt port self.old) }
        ensures reported { self.new.telling ≡ true → received port result buffer.new ≡ receipt port self.old }
        ensures left { SameButLog (takes_arrival port self.old) self.new }
        ensures count { IfOk result (λ got. IfSome got (λ g. g.0 ≤ RECEIVE_SIZE)) }
        ensures fault { IfErr result (λ e. e ≡ WireFault.Receive) }
        ensures failed { OnErr result (Rises self.old.failures self.new.failures) }
        ensures steady { OnOk result (self.new.failures ≡ self.old.failures) }
    {
        if self.count_call() {
            self.note(Entry::Failed(port));
            self.count_failure();
            return Err(WireFault::Receive);
        }
        match take_first(&mut self.inbox, port) {
            Some(arrival) => self.give(port, arrival, buffer),
            None => self.give_none(port),
        }
    }

    fn send(&mut self, out: &Out) -> Result<(), WireFault>
        ensures calls { Grows (calls_of self.old) (calls_of self.new) (sent out.now (was_done result) ∷ []) }
        ensures done { OnOk result (self.old.fails_in ≢ 1) }
        ensures reported { self.new.telling ≡ true → self.old.fails_in ≢ 1 → is_ok result ≡ true }
        ensures left { SameButLog (counts_call self.old) self.new }
        ensures fault { IfErr result (λ e. e ≡ WireFault.Send) }
        ensures failed { OnErr result (Rises self.old.failures self.new.failures) }
        ensures steady { OnOk result (self.new.failures ≡ self.old.failures) }
    {
        let ok = !self.count_call();
        let Ok(out) = out.clone() else {
            unreachable!();
        };
        if self.note(Entry::Sent { out, ok }) && ok {
            return Ok(());
        }
        self.count_failure();
        Err(WireFault::Send)
    }

    fn failures(&self) -> u64 {
        self.failures
    }
}

// The lesser of a port and the least so far.
fn lesser_of(least: Option<u16>, port: u16) -> Option<u16>
    ensures { result ≡ lesser least port }
{
    match least {
        Some(least) => Some(least.min(port)),
        None => Some(port),
    }
}

// The least port above `after` at which a datagram waits, or the least of all such ports.
fn next_at<A: Allocator>(inbox: &[Arrival<A>], after: u16) -> Option<u16>
    ensures { result ≡ next_ready after (map waiting_of inbox.now) }
{
    let mut above = None;
    let mut least = None;
    for arrival in inbox {
        least = lesser_of(least, arrival.port);
        if arrival.port > after {
            above = lesser_of(above, arrival.port);
        }
    }
    above.or(least)
}

// The time when a wait ends: if nothing has arrived, the clock advances to the moment that is waited for.
fn end_of_wait(ready: Option<u16>, until: Option<u64>, time: u64) -> u64
    ensures { result ≡ time_after ready until time }
{
    match (ready, until) {
        (None, Some(until)) => time.max(until),
        _ => time,
    }
}

// What is settled at this time: all, if no port is ready, and otherwise what the test has set.
fn settled_at(ready: Option<u16>, settled: Option<u64>, time: u64) -> Option<u64>
    ensures { result ≡ settled_by ready settled time }
{
    match ready {
        Some(_) => settled,
        None => Some(time),
    }
}

impl<A: Allocator> ReadyWire for MemoryWire<A> {
    fn wait(&mut self, after: u16, until: Option<u64>) -> Ready
        ensures calls { Grows (calls_of self.old) (calls_of self.new) (waited after until result.port result.time result.settled ∷ []) }
        ensures ready { result.port ≡ next_ready after self.old.inbox }
        ensures time { result.time ≡ time_after result.port until self.old.time }
        ensures settled { result.settled ≡ settled_by result.port self.old.settled result.time }
        ensures left { SameButLog (record self.old { time = result.time }) self.new }
        ensures steady { self.new.failures ≡ self.old.failures }
    {
        let ready = next_at(self.inbox.as_slice(), after);
        let now = end_of_wait(ready, until, self.time);
        let settled = settled_at(ready, self.settled, now);
        self.time = now;
        self.note(Entry::Waited {
            after,
            until,
            ready,
            now,
            settled,
        });
        Ready {
            port: ready,
            time: now,
            settled,
        }
    }
}
