//! The observer that writes the log and the history.

ghost use Rattle.std.specs.Prelude.{◌≡◌, [], length, true, Some, Ok, option_copied, if◌then◌else◌};
ghost use Rattle.tws_file.specs.declared.«ruleset».Ruleset.TheVariants.{Lynx, Ms};
ghost use Rattle.archive_history.specs.Times.{ShowsMoment};
ghost use Rattle.archive_table.specs.Table.{map_of};
ghost use Rattle.archive_log.specs.Events.{recorded_event, served_after, taken_after};
ghost use Rattle.archive_log.specs.ServerLog.{FollowsEvent, FollowsStep, IsKnown, KeepsFile, KeepsTaken};
ghost use Rattle.archive_log.specs.Budget.{after_event, after_events, after_line, is_bounded, new_budget, settled};

use crate::line_budget::LineBudget;
use crate::log_event::LogEvent;
use crate::log_line::LogLine;
use crate::logged_transfers::LoggedTransfers;
use archive_history::{HistoryFault, HistoryFolder, RecordOutcome, Stamp, record as record_in};
use archive_server::{DropCause, ServerObserver};
use archive_table::{Merged, Observer, Step, StepEvent, Table, Taken};
use arrayvec::ArrayString;
use log::Log;
use std::alloc::{Allocator, Global};
use std::fmt::Write;
use std::io;
use std::marker::Model;
use std::time::Clock;
use tftp_packet::Endpoint;
use tws_file::Ruleset;

// How many bytes of a cause are reported at most.
const CAUSE: usize = 256;

/// Writes a line to a log for each event of a server, and puts each solution file that was taken into a history, if there
/// is one. Whatever it cannot write or has no memory for changes nothing else. Of refused and dropped requests it writes at most
/// `LINES` lines in a second, and then how many it left out.
#[derive(Drop)]
pub struct ServerLog<C: Clock, L: Log, H: HistoryFolder, A: Allocator + Copy = Global> {
    alloc: A,
    clock: C,
    log: L,
    history: Option<H>,
    transfers: LoggedTransfers,
    /// How many files were taken.
    taken: u64,
    /// How many gets were finished.
    served: u64,
    /// Which lines were left out.
    budget: LineBudget,
}

// Milliseconds of the clock that does not go back; 0 if it cannot be read.
fn millis_now(clock: &impl Clock) -> u64 {
    match clock.monotonic() {
        Ok(time) => u64::try_from(time.as_millis()).unwrap_or(u64::MAX),
        Err(_) => 0,
    }
}

impl<C: Clock, L: Log, H: HistoryFolder, A: Allocator + Copy> Model for ServerLog<C, L, H, A> {
    ghost use Rattle.archive_log.specs.ServerLog.{Logged};

    ghost Value = { Logged H };

    ghost view = { λ log. record { transfers = log.transfers; history = log.history; taken = log.taken; served = log.served; budget = log.budget } };
}

impl<C: Clock, L: Log, H: HistoryFolder, A: Allocator + Copy> ServerLog<C, L, H, A> {
    /// A log of a server that has made no step yet.
    pub fn new(alloc: A, clock: C, log: L, history: Option<H>) -> Self
        ensures { result ≡ record { transfers = []; history = history; taken = 0; served = 0; budget = new_budget } }
    {
        ServerLog {
            alloc,
            clock,
            log,
            history,
            transfers: LoggedTransfers::new(),
            taken: 0,
            served: 0,
            budget: LineBudget::new(),
        }
    }

    /// The folder of the history, if there is one.
    pub fn history(&self) -> Option<&H>
        ensures { option_copied result ≡ self.now.history }
    {
        self.history.as_ref()
    }

    /// Gives the folder of the history back, if there is one, and drops the rest.
    pub fn into_history(self) -> Option<H>
    where
        C: Drop,
        L: Drop,
        H: Drop,
        ensures { result ≡ self.history }
    {
        let ServerLog { history, .. } = self;
        history
    }

    // Writes the line of an event.
    fn report(&self, time: &Stamp, event: LogEvent<'_>) {
        LogLine { time, event }.report(&self.log);
    }

    // Writes the line of an event that happens now.
    fn report_now(&self, event: LogEvent<'_>) {
        self.report(&Stamp::now(&self.clock), event);
    }

    // Writes how many lines were left out, if any were.
    fn report_left_out(&self, time: &Stamp, count: u64) {
        if count > 0 {
            self.report(time, LogEvent::LeftOut { count });
        }
    }

    // Whether the line of an event at this moment is to be written.
    fn admits(&mut self, now: u64, event: &LogEvent<'_>) -> bool
        ensures { self.new ≡ record self.old { budget = if is_bounded event.now then after_line now self.old.budget else self.old.budget } }
    {
        if event.is_bounded() {
            self.budget.admit(now)
        } else {
            true
        }
    }

    // Writes the line of an event at this moment, if it is not one too many, and before it how many lines were left out until
    // then.
    fn report_at(&mut self, now: u64, time: &Stamp, event: LogEvent<'_>)
        ensures { self.new ≡ record self.old { budget = after_event now event.entry self.old.budget } }
    {
        let left_out = self.budget.take_by(now);
        self.report_left_out(time, left_out);
        if self.admits(now, &event) {
            self.report(time, event);
        }
    }

    // The same, if there was an event.
    fn report_if(&mut self, now: u64, time: &Stamp, event: Option<LogEvent<'_>>)
        ensures { self.new ≡ record self.old { budget = after_events now event.entry self.old.budget } }
    {
        match event {
            Some(event) => self.report_at(now, time, event),
            None => {}
        }
    }

    // The event that the server stops.
    fn stopped_event(&self) -> LogEvent<'static>
        ensures { result ≡ LogEvent.Stopped self.now.taken self.now.served }
    {
        LogEvent::Stopped {
            taken: self.taken,
            served: self.served,
        }
    }

    // Counts what a step did, if the last line has the number of it.
    fn count(&mut self, event: StepEvent)
        ensures { self.new ≡ record self.old { taken = taken_after event self.old.taken; served = served_after event self.old.served } }
    {
        match event {
            StepEvent::Taken(_) => self.taken = self.taken.saturating_add(1),
            StepEvent::Finished { .. } => self.served = self.served.saturating_add(1),
            _ => {}
        }
    }

    // Reports that a file is not in the history, with the system's cause if it is known.
    fn report_lost(&self, time: &Stamp, peer: Endpoint, why: HistoryFault) {
        let mut words = ArrayString::<CAUSE>::new();
        if let Some(error) = self.cause_of(why) {
            // What does not fit is left out.
            let _ = write!(words, "{error}");
        }
        let cause = if words.is_empty() {
            None
        } else {
            Some(words.as_str())
        };
        self.report(time, LogEvent::NotRecorded { peer, why, cause });
    }

    // What the system said of the call of the history that failed, if one did.
    fn cause_of(&self, why: HistoryFault) -> Option<io::Error> {
        match why {
            HistoryFault::NoFreeName | HistoryFault::Memory => None,
            _ => self.history.as_ref()?.last_error(),
        }
    }

    // Reports that the same bytes were in the history, if they were.
    fn report_known(&self, time: &Stamp, peer: Endpoint, outcome: Option<RecordOutcome>) {
        if let Some(event) = recorded_event(outcome, peer) {
            self.report(time, event);
        }
    }

    // Puts a file that was taken into the history, and reports if it was there, or why it is not.
    fn record<T: Allocator>(&mut self, time: &Stamp, taken: &Taken<T>, merged: Merged)
        requires { ShowsMoment time.now }
        ensures same { self.new ≡ record self.old { history = self.new.history } }
        ensures history { H.has_model ≡ true → H.undoes_renames ≡ true → KeepsFile H.model taken.now merged self.old.history self.new.history }
    {
        match add_to_history(self.alloc, &mut self.history, time, taken, merged) {
            Ok(outcome) => self.report_known(time, taken.peer, outcome),
            Err(why) => self.report_lost(time, taken.peer, why),
        }
    }

    // Puts the file that a step took, if it took one, into the history.
    fn record_step<T: Allocator>(&mut self, time: &Stamp, step: &Step<T>)
        requires { ShowsMoment time.now }
        ensures same { self.new ≡ record self.old { history = self.new.history } }
        ensures history { H.has_model ≡ true → H.undoes_renames ≡ true → KeepsTaken H.model step.now.taken step.now.event self.old.history self.new.history }
    {
        let Some(taken) = &step.taken else {
            return;
        };
        if let StepEvent::Taken(merged) = step.event() {
            self.record(time, taken, merged);
        }
    }

    // Reports a step, if it is an event, and puts the file that it took into the history.
    fn follow<T: Allocator>(&mut self, port: u16, from: Option<Endpoint>, step: &Step<T>)
        ensures step { FollowsStep port from step.now self.old self.new }
        ensures history { H.has_model ≡ true → H.undoes_renames ≡ true → KeepsTaken H.model step.now.taken step.now.event self.old.history self.new.history }
    {
        let now = millis_now(&self.clock);
        let event = self.transfers.on_step(now, port, from, step);
        self.count(step.event());
        if event.is_none() && step.taken.is_none() {
            return;
        }
        let time = Stamp::now(&self.clock);
        self.report_if(now, &time, event);
        self.record_step(&time, step);
    }
}

// The event that a server starts.
fn started_event<'a, T: Allocator + Copy>(
    at: Endpoint,
    folder: Option<&'a str>,
    table: &Table<T>,
) -> LogEvent<'a>
    ensures { result ≡ LogEvent.Started at (length (map_of Lynx table.now.maps).entries) (length (map_of Ms table.now.maps).entries) folder.entry }
{
    LogEvent::Started {
        at,
        lynx: table.collection(Ruleset::Lynx).len() as u64,
        ms: table.collection(Ruleset::Ms).len() as u64,
        folder,
    }
}

// Puts a file that was taken into the history, if there is one and the file is readable; `None` if not. Whether it improved a
// collection does not matter: what it was worse than may be bogus.
fn add_to_history<H: HistoryFolder, A: Allocator + Copy, T: Allocator>(
    alloc: A,
    history: &mut Option<H>,
    time: &Stamp,
    taken: &Taken<T>,
    merged: Merged,
) -> Result<Option<RecordOutcome>, HistoryFault>
    requires { ShowsMoment time.now }
    ensures history { H.has_model ≡ true → H.undoes_renames ≡ true → KeepsFile H.model taken.now merged history.old history.new }
    // That it is known is said only of bytes that are there from that day.
    ensures known { H.has_model ≡ true → result ≡ Ok (Some RecordOutcome.Known) → IsKnown H.model time.now taken.now history.old history.new }
{
    if merged.fault.is_some() {
        return Ok(None);
    }
    let Some(history) = history else {
        return Ok(None);
    };
    let Some(ruleset) = taken.ruleset() else {
        return Ok(None);
    };
    match record_in(alloc, history, time, taken.peer, ruleset, &taken.file) {
        Ok(outcome) => Ok(Some(outcome)),
        Err(why) => Err(why),
    }
}

// The event that a file was in the history already, if it was.
fn recorded_event(outcome: Option<RecordOutcome>, peer: Endpoint) -> Option<LogEvent<'static>>
    ensures { result ≡ recorded_event outcome peer }
{
    match outcome {
        None => None,
        Some(RecordOutcome::Added) => None,
        Some(RecordOutcome::Known) => Some(LogEvent::AlreadyRecorded { peer }),
    }
}

/// A step is reported if it is an event, and the file that it took goes into the history if it is readable.
impl<C: Clock, L: Log, H: HistoryFolder, A: Allocator + Copy> Observer for ServerLog<C, L, H, A> {
    fn on_step<T: Allocator + Copy>(
        &mut self,
        port: u16,
        from: Option<Endpoint>,
        step: &Step<T>,
        _table: &Table<T>,
    )
        ensures step { FollowsStep port from step.now self.old self.new }
        ensures history { H.has_model ≡ true → H.undoes_renames ≡ true → KeepsTaken H.model step.now.taken step.now.event self.old.history self.new.history }
    {
        self.follow(port, from, step);
    }
}

/// The server's start and stop are reported, and the requests that were dropped.
impl<C: Clock, L: Log, H: HistoryFolder, A: Allocator + Copy> ServerObserver
    for ServerLog<C, L, H, A> {
    fn on_started<T: Allocator + Copy>(
        &mut self,
        at: Endpoint,
        folder: Option<&str>,
        table: &Table<T>,
    )
        ensures same { self.new ≡ self.old }
    {
        self.report_now(started_event(at, folder, table));
    }

    fn on_dropped(&mut self, from: Endpoint, why: DropCause)
        ensures dropped { FollowsEvent (LogEvent.Dropped from why) self.old self.new }
    {
        let now = millis_now(&self.clock);
        let time = Stamp::now(&self.clock);
        self.report_at(now, &time, LogEvent::Dropped { peer: from, why });
    }

    fn on_stopped(&mut self)
        ensures same { self.new ≡ record self.old { budget = settled self.old.budget } }
    {
        let time = Stamp::now(&self.clock);
        let left_out = self.budget.take();
        self.report_left_out(&time, left_out);
        self.report(&time, self.stopped_event());
    }
}
