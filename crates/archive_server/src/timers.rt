//! The timers of all live ports.

ghost use Rattle.std.specs.Prelude.{◌≡◌, ℕ, ◌<◌, ◌≤◌, ◌*◌, [], ◌++◌, length, map, take, drop, IfSome, IfNone};
ghost use Rattle.std.specs.List.{insert, remove};
ghost use Rattle.archive_server.specs.Timers.{with_timer, without_timer, with_due, renewed, lower, lowered, giving_ports, victim_ports, late_ports, new_timer, is_due as due_at, gives_way as way_given, is_quiet, timed, timed_out, timers_after, restart, earlier, earliest, HasRoom};

use crate::change::Change;
use crate::limits::{ALL_MISSES, LATE};
use crate::mode::Mode;
use crate::places::has_place;
use crate::timer::Timer;
use archive_table::{LIVE, Table};
use arrayvec::ArrayVec;
use std::alloc::Allocator;
use std::marker::Model;

/// A timer for each live port, in the order of the ports. They are in a fixed row of `LIVE` places and allocate
/// nothing.
#[derive(Drop)]
pub(crate) struct Timers {
    row: ArrayVec<Timer, LIVE>,
}

impl Model for Timers {
    ghost use Rattle.std.specs.Prelude.{List};
    ghost use Rattle.archive_server.specs.declared.timer.Timer.{Timer};

    ghost Value = { List Timer };

    ghost view = { λ t. t.row.items };
}

// The place in the row for a timer of this port.
fn place_for(row: &[Timer], port: u16) -> usize
    ensures within { result ≤ length row.now }
    ensures place { (due : ℕ) → with_timer (new_timer port due) row.now ≡ insert row.now result (new_timer port due) }
{
    for (i, timer) in row.iter().enumerate() {
        if timer.port >= port {
            return i;
        }
    }
    row.len()
}

// The place in the row of this port's timer.
fn place_of(row: &[Timer], port: u16) -> Option<usize>
    ensures within { IfSome result (λ i. i < length row.now) }
    ensures place { IfSome result (λ i. without_timer port row.now ≡ remove row.now i) }
    ensures none { IfNone result (without_timer port row.now ≡ row.now) }
{
    for (i, timer) in row.iter().enumerate() {
        if timer.port == port {
            return Some(i);
        }
    }
    None
}

// The timer of a transfer that was just opened.
fn opened(port: u16, due: u64) -> Timer
    ensures { result ≡ new_timer port due }
{
    Timer {
        port,
        due,
        first_due: due,
        reached: 0,
    }
}

// A timer, restarted if it is that of the port.
fn begun_anew(timer: Timer, port: u16, due: u64, block: u16) -> Timer
    ensures { result ≡ renewed port due block timer }
{
    if timer.port == port {
        Timer {
            port: timer.port,
            due,
            first_due: timer.first_due,
            reached: timer.reached.max(block),
        }
    } else {
        timer
    }
}

// A timer after one more quiet turn.
fn one_less(timer: Timer) -> Timer
    ensures { result ≡ lowered timer }
{
    Timer {
        port: timer.port,
        due: timer.due.saturating_sub(1),
        first_due: timer.first_due,
        reached: timer.reached,
    }
}

// Restarts the timer of a port.
fn renew_in(row: &mut [Timer], port: u16, due: u64, block: u16)
    ensures { row.new ≡ map (renewed port due block) row.old }
{
    for timer in row.iter_mut() {
        *timer = begun_anew(*timer, port, due, block);
    }
}

// Counts a quiet turn.
fn lower_in(row: &mut [Timer])
    ensures { row.new ≡ map lowered row.old }
{
    for timer in row.iter_mut() {
        *timer = one_less(*timer);
    }
}

// The earlier of this time and that of a timer.
fn earlier_of(least: Option<u64>, timer: Timer) -> Option<u64>
    ensures { result ≡ earlier least timer }
{
    match least {
        None => Some(timer.due),
        Some(due) => Some(due.min(timer.due)),
    }
}

// Whether a port is due, if any is by `by`.
fn is_due(by: Option<u64>, timer: Timer) -> bool
    ensures { result ≡ due_at by timer }
{
    match by {
        Some(now) => timer.due <= now,
        None => false,
    }
}

// Whether the transfer at a port dallies while all places are taken.
fn gives_way<A: Allocator + Copy>(mode: Mode, port: u16, table: &Table<A>) -> bool
    ensures { result ≡ way_given mode port table.now }
{
    match mode {
        Mode::Turn => false,
        Mode::Round { .. } => !has_place(table) && table.is_dallying(port),
    }
}

// Appends the time-outs of the port that gives way since places have run out.
fn push_victim(victim: Option<u16>, ports: &mut ArrayVec<u16, LATE>)
    requires room { length ports.old.items ≤ 2 * LIVE }
    ensures { ports.new.items ≡ ports.old.items ++ victim_ports victim }
{
    let Some(port) = victim else {
        return;
    };
    match ports.try_extend_from_slice(&[port; ALL_MISSES]) {
        Ok(()) => {}
        Err(_) => {}
    }
}

impl Timers {
    /// Returns one without timers.
    pub(crate) fn new() -> Self
        ensures { result ≡ [] }
    {
        Timers {
            row: ArrayVec::new(),
        }
    }

    /// Updates the timers after a visit.
    pub(crate) fn apply(&mut self, mode: Mode, change: Change)
        requires { HasRoom change self.old }
        ensures { self.new ≡ timers_after mode change self.old }
    {
        if mode.counts(change) {
            self.lower();
        } else {
            self.follow(mode.noticed(change), mode.restart());
        }
    }

    // Follows what a visit changed for the live ports: the timer of a port that was opened or sent starts at `due`.
    fn follow(&mut self, change: Change, due: u64)
        requires { HasRoom change self.old }
        ensures { self.new ≡ timed change due self.old }
    {
        match change {
            Change::Quiet | Change::Nothing | Change::Dropped(_) | Change::Answered(_) => {}
            Change::Opened(port) => {
                let place = place_for(self.row.as_slice(), port);
                self.row.insert(place, opened(port, due));
            }
            Change::Sent(port, block) => self.renew(port, due, block),
            Change::Closed(port) => self.remove(port),
        }
    }

    /// Updates the timers after a time-out of a port.
    pub(crate) fn apply_timeout(&mut self, mode: Mode, change: Change, port: u16)
        ensures { self.new ≡ timed_out change port (restart mode) self.old }
    {
        match change {
            Change::Closed(port) => self.remove(port),
            Change::Quiet
            | Change::Nothing
            | Change::Dropped(_)
            | Change::Opened(_)
            | Change::Sent(_, _)
            | Change::Answered(_) => {
                self.renew(port, mode.restart(), 0);
            }
        }
    }

    // Restarts the timer of a port, whose transfer has reached this block.
    fn renew(&mut self, port: u16, due: u64, block: u16)
        ensures { self.new ≡ with_due port due block self.old }
    {
        renew_in(self.row.as_mut_slice(), port, due, block);
    }

    // Removes the timer of a port.
    fn remove(&mut self, port: u16)
        ensures { self.new ≡ without_timer port self.old }
    {
        if let Some(place) = place_of(self.row.as_slice(), port) {
            self.row.remove(place);
        }
    }

    // Counts a quiet turn.
    fn lower(&mut self)
        ensures { self.new ≡ lower self.old }
    {
        lower_in(self.row.as_mut_slice());
    }

    /// The ports that time out after a visit, in order: those that are due or give way since they dally, once more those that
    /// dally, and the one that gives way since places have run out.
    pub(crate) fn late<A: Allocator + Copy>(
        &self,
        mode: Mode,
        change: Change,
        table: &Table<A>,
    ) -> ArrayVec<u16, LATE>
        ensures { result.items ≡ late_ports mode change self.now table.now }
    {
        let by = mode.due_by(change);
        let mut ports = ArrayVec::new();
        for timer in self.row.as_slice() {
            if is_due(by, *timer) || gives_way(mode, timer.port, table) {
                ports.push(timer.port);
            }
        }
        self.push_giving(mode, table, &mut ports);
        push_victim(self.victim(mode, change, table), &mut ports);
        ports
    }

    // Appends the ports that give way, in order.
    fn push_giving<A: Allocator + Copy>(
        &self,
        mode: Mode,
        table: &Table<A>,
        ports: &mut ArrayVec<u16, LATE>,
    )
        requires room { length ports.old.items ≤ LIVE }
        ensures giving { ports.new.items ≡ ports.old.items ++ giving_ports mode self.now table.now }
        ensures few { length ports.new.items ≤ 2 * LIVE }
    {
        for timer in self.row.as_slice() {
            if gives_way(mode, timer.port, table) {
                ports.push(timer.port);
            }
        }
    }

    /// The timers, in the order of the ports.
    pub(crate) fn as_slice(&self) -> &[Timer]
        ensures value { result.now ≡ self.now }
        ensures few { length result.now ≤ LIVE }
    {
        self.row.as_slice()
    }

    /// The earliest time at which a port is due, if there is a port.
    pub(crate) fn earliest(&self) -> Option<u64>
        ensures { result ≡ earliest self.now }
    {
        let mut least = None;
        for timer in self.row.as_slice() {
            least = earlier_of(least, *timer);
        }
        least
    }
}
