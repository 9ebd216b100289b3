//! Whole runs of clients.

ghost use Rattle.std.specs.Prelude.{◌≡◌};
ghost use Rattle.archive_runs.specs.Rounds.{EndsGetInRounds, GetsInRounds, MakesRunRounds, PutsInRounds};
ghost use Rattle.archive_runs.specs.Run.{RunsPut, RunsGet, EndsPut, EndsGet, MakesRunTurns, WritesGot, put_result, run_fault_of, unfinished};

use crate::run::{GetRun, PutRun};
use crate::run_fault::RunFault;
use archive_client::{Cause, Get, State};
use archive_wire::{ReadyWire, Wire};
use std::alloc::Allocator;
use std::io::Write;
use tftp_packet::Endpoint;
use tws_file::Ruleset;

// The fault of a run whose client failed with this cause.
fn fault(why: Cause) -> RunFault
    ensures { result ≡ run_fault_of why }
{
    match why {
        Cause::Memory => RunFault::Memory,
        Cause::Refused(_) | Cause::TimedOut | Cause::TooLong => RunFault::Transfer(why),
    }
}

// The result of a put whose client ends in this state.
fn put_answer(state: State, len: u64) -> Result<u64, RunFault>
    ensures { result ≡ put_result state len }
{
    match state {
        State::Sent => Ok(len),
        State::Running | State::Got => Err(RunFault::Transfer(Cause::TimedOut)),
        State::Failed(why) => Err(fault(why)),
    }
}

/// Puts a file: begins, and makes turns until the client is over, at most `turns`. Returns the file's length in bytes.
/// `server` is the server's host and request port.
///
/// # Errors
///
/// Those of `PutRun::begin`. Otherwise the cause with which the client failed, out of memory as `Memory`; a client that
/// still runs when its turns are used up has timed out.
pub fn run_put<A: Allocator + Copy, W: Wire>(
    wire: &mut W,
    server: Endpoint,
    file: Vec<u8, A>,
    turns: u64,
) -> Result<u64, RunFault>
    ensures { RunsPut server file.items turns result (W.calls wire.old) (W.calls wire.new) }
{
    let len = file.len() as u64;
    match PutRun::begin(wire, server, file) {
        Ok(run) => end_put(wire, run, len, turns),
        Err(fault) => Err(fault),
    }
}

// Makes the turns of a put that has begun. Returns its result.
fn end_put<A: Allocator + Copy, W: Wire>(
    wire: &mut W,
    run: PutRun<A>,
    len: u64,
    turns: u64,
) -> Result<u64, RunFault>
    ensures { EndsPut (MakesRunTurns turns) run len result (W.calls wire.old) (W.calls wire.new) }
{
    let mut run = run;
    run.turns(wire, turns);
    put_answer(run.client().state(), len)
}

/// Gets the collection of a ruleset and writes it: begins, and makes turns until the client is over, at most `turns`;
/// then writes the file, if all of it was received. Returns its length in bytes.
///
/// # Errors
///
/// `Socket` if no port was opened; the cause with which the client failed, out of memory as `Memory`; a client that
/// still waits for the file when its turns are used up has timed out. In these cases nothing is written. `Write` if the
/// writer fails: a proper prefix of the file was written.
pub fn run_get<A: Allocator + Copy, W: Wire, O: Write>(
    alloc: A,
    wire: &mut W,
    server: Endpoint,
    ruleset: Ruleset,
    turns: u64,
    out: &mut O,
) -> Result<u64, RunFault>
    ensures { RunsGet server «ruleset» turns result (W.calls wire.old) (W.calls wire.new) (O.contents out.old) (O.contents out.new) }
{
    match GetRun::begin(alloc, wire, server, ruleset) {
        Ok(run) => end_get(wire, run, turns, out),
        Err(fault) => Err(fault),
    }
}

// Makes the turns of a get that has begun, and writes its file. Returns its result.
fn end_get<A: Allocator + Copy, W: Wire, O: Write>(
    wire: &mut W,
    run: GetRun<A>,
    turns: u64,
    out: &mut O,
) -> Result<u64, RunFault>
    ensures { EndsGet run turns result (W.calls wire.old) (W.calls wire.new) (O.contents out.old) (O.contents out.new) }
{
    let mut run = run;
    run.turns(wire, turns);
    write_got(run.client(), out)
}

// Writes the file that a get has fetched.
fn write_got<A: Allocator + Copy, O: Write>(get: &Get<A>, out: &mut O) -> Result<u64, RunFault>
    ensures { WritesGot get.now result (O.contents out.old) (O.contents out.new) }
{
    match get.file() {
        Some(file) => match file.write_to(out) {
            Ok(()) => Ok(file.len()),
            Err(_) => Err(RunFault::Write),
        },
        None => Err(get_fault(get.state())),
    }
}

// Why a get whose client ends in this state has no file.
fn get_fault(state: State) -> RunFault
    ensures { result ≡ unfinished state }
{
    match state {
        State::Failed(why) => fault(why),
        State::Running | State::Sent | State::Got => RunFault::Transfer(Cause::TimedOut),
    }
}

/// Puts a file by the clock of the wire: begins, and makes rounds until the client is over, at most `rounds`, each of
/// which waits `TIMEOUT` milliseconds at most. Returns the file's length in bytes. `server` is the server's host and request
/// port.
///
/// # Errors
///
/// Those of `run_put`.
pub fn put_in_rounds<A: Allocator + Copy, W: ReadyWire>(
    wire: &mut W,
    server: Endpoint,
    file: Vec<u8, A>,
    rounds: u64,
) -> Result<u64, RunFault>
    ensures { PutsInRounds server file.items rounds result (W.calls wire.old) (W.calls wire.new) }
{
    let len = file.len() as u64;
    match PutRun::begin(wire, server, file) {
        Ok(run) => end_put_in_rounds(wire, run, len, rounds),
        Err(fault) => Err(fault),
    }
}

// Makes the rounds of a put that has begun. Returns its result.
fn end_put_in_rounds<A: Allocator + Copy, W: ReadyWire>(
    wire: &mut W,
    run: PutRun<A>,
    len: u64,
    rounds: u64,
) -> Result<u64, RunFault>
    ensures { EndsPut (MakesRunRounds rounds) run len result (W.calls wire.old) (W.calls wire.new) }
{
    let mut run = run;
    run.rounds(wire, rounds);
    put_answer(run.client().state(), len)
}

/// Gets the collection of a ruleset by the clock of the wire, and writes it: begins, makes rounds until the client has the
/// file or has failed, at most `rounds`, each of which waits `TIMEOUT` milliseconds at most; then writes the file, if all
/// of it was received. Returns its length in bytes, and the run, which can then dally.
///
/// # Errors
///
/// Those of `run_get`.
pub fn get_in_rounds<A: Allocator + Copy, W: ReadyWire, O: Write>(
    alloc: A,
    wire: &mut W,
    server: Endpoint,
    ruleset: Ruleset,
    rounds: u64,
    out: &mut O,
) -> Result<(u64, GetRun<A>), RunFault>
    ensures { GetsInRounds server «ruleset» rounds result (W.calls wire.old) (W.calls wire.new) (O.contents out.old) (O.contents out.new) }
{
    match GetRun::begin(alloc, wire, server, ruleset) {
        Ok(run) => end_get_in_rounds(wire, run, rounds, out),
        Err(fault) => Err(fault),
    }
}

// Makes the rounds of a get that has begun, and writes its file. Returns its result.
fn end_get_in_rounds<A: Allocator + Copy, W: ReadyWire, O: Write>(
    wire: &mut W,
    run: GetRun<A>,
    rounds: u64,
    out: &mut O,
) -> Result<(u64, GetRun<A>), RunFault>
    ensures { EndsGetInRounds rounds run result (W.calls wire.old) (W.calls wire.new) (O.contents out.old) (O.contents out.new) }
{
    let mut run = run;
    run.rounds(wire, rounds);
    match write_got(run.client(), out) {
        Ok(len) => Ok((len, run)),
        Err(fault) => Err(fault),
    }
}
