//! A server at work, over any wire.

ghost use Rattle.std.specs.Prelude.{◌≡◌, ◌<◌, ◌≤◌, ◌+◌, ℕ, Bool, true, false, Option, Result, option_map, unwrap_or, codes};
ghost use Rattle.archive_server.specs.Turn.{MakesOne, count_if, fresh_server};
ghost use Rattle.archive_keepers.specs.declared.replaced.Replaced.{Replaced as Replacement};
ghost use Rattle.command_line.specs.declared.tool_fault.ToolFault.{ToolFault as Fault};
ghost use Rattle.command_line.specs.Faults.{answer_status};
ghost use Rattle.command_line.specs.Printing.{Prints};
ghost use Rattle.archive_serving.specs.Serve.{ReportsServed, unusable_line, IsLimitFor, ServeEnds, Served, ServiceRuns, turn_of};

use crate::serve::ServeArguments;
use crate::turn_limit::TurnLimit;
use archive_arguments::write_line;
use archive_keepers::{Replaced, ServedKeeper};
use archive_server::{Policies, Server, ServerObserver};
use archive_wire::ReadyWire;
use command_line::{FAILED, ToolFault, finish, print_about};
use std::alloc::Global;
use std::io::Write;
use tftp_packet::Endpoint;

/// A server at work, with what keeps its collections and what observes it.
#[derive(Drop)]
pub struct Service<'a, K: ServedKeeper, O: ServerObserver> {
    server: Server,
    keeper: K,
    observer: O,
    limit: TurnLimit,
    // The address of this host that it listens at.
    host: u32,
    // The folder that the collections are kept in, if there is one.
    folder: Option<&'a str>,
}

// Reports that nothing can be kept any more, since this was replaced or, if nothing was, since it is not known whether a
// collection was kept, and returns the status.
fn unusable<E: Write>(replaced: Option<Replaced>, name: &str, errors: &mut E) -> u8
    ensures status { result ≡ 2 }
    ensures printed { Prints (unusable_line replaced name.now) (E.contents errors.old) (E.contents errors.new) }
{
    match replaced {
        Some(replaced) => print_about(name, replaced, errors),
        None => print_about(name, "not known whether kept", errors),
    }
    FAILED
}

// Reports why a server failed, if it did, and whether its keeper was usable to the end; returns the status.
fn end_serving<E: Write>(
    done: Result<(), ToolFault>,
    usable: bool,
    replaced: Option<Replaced>,
    name: &str,
    errors: &mut E,
) -> u8
    ensures usable { usable ≡ true → result ≡ answer_status done }
    ensures unknown { usable ≡ false → result ≡ 2 }
    ensures silent { result ≡ 0 → errors.new ≡ errors.old }
    ensures printed { ReportsServed usable done replaced name.now (E.contents errors.old) (E.contents errors.new) }
{
    let status = finish(done, &[], errors);
    if usable {
        status
    } else {
        unusable(replaced, name, errors)
    }
}

impl<'a, K: ServedKeeper, O: ServerObserver> Service<'a, K, O> {
    /// A service by this server, as it was asked for, at this address of this host and by these policies. No turn was made
    /// yet.
    pub fn new(
        arguments: &'a ServeArguments,
        host: u32,
        policies: Policies,
        mut server: Server,
        keeper: K,
        observer: O,
    ) -> Self
        ensures server { result.server ≡ record server { policies = policies } }
        ensures keeper { result.keeper ≡ keeper }
        ensures observer { result.observer ≡ observer }
        ensures limit { IsLimitFor arguments.now.turns result.limit }
    {
        server.set_policies(policies);
        Service {
            server,
            keeper,
            observer,
            limit: TurnLimit::of(arguments.turns),
            host,
            folder: arguments.folder(),
        }
    }

    // Makes one turn or round. Returns whether a file was taken.
    fn make_one<N: ReadyWire>(&mut self, wire: &mut N) -> bool
        ensures turn { MakesOne (turn_of self.old.limit) self.old.server self.new.server result (N.calls wire.old) (N.calls wire.new) (K.calls self.old.keeper) (K.calls self.new.keeper) }
        ensures limit { self.new.limit ≡ self.old.limit }
    {
        let keeper = &mut self.keeper;
        let observer = &mut self.observer;
        match self.limit {
            TurnLimit::Turns(_) => self.server.turn(wire, keeper, observer),
            TurnLimit::Rounds(_) => self.server.round(wire, keeper, observer),
        }
    }

    // Makes one turn or round. Returns how many files were taken, of which there were `taken` before.
    fn make_turn<N: ReadyWire>(&mut self, wire: &mut N, taken: u64) -> u64
        requires { taken < u64.MAX }
        ensures turn { (took : Bool) × MakesOne (turn_of self.old.limit) self.old.server self.new.server took (N.calls wire.old) (N.calls wire.new) (K.calls self.old.keeper) (K.calls self.new.keeper) × (result ≡ count_if took taken) }
        ensures few { result ≤ taken + 1 }
        ensures limit { self.new.limit ≡ self.old.limit }
    {
        if self.make_one(wire) {
            taken + 1
        } else {
            taken
        }
    }

    // Makes turns or rounds up to the limit, as long as the keeper is usable. Returns how many files were taken.
    fn make_turns<N: ReadyWire>(&mut self, wire: &mut N) -> u64
        ensures { ServiceRuns K.usable K.calls self.old.limit self.old.server self.new.server self.old.keeper self.new.keeper (N.calls wire.old) (N.calls wire.new) result }
    {
        let mut taken = 0;
        if !self.keeper.is_usable() {
            return taken;
        }
        for _turn in 0..self.limit.count() {
            taken = self.make_turn(wire, taken);
            if !self.keeper.is_usable() {
                return taken;
            }
        }
        taken
    }

    // Makes its turns or rounds, with a line before and one after them.
    fn serve_turns<N: ReadyWire, W: Write>(
        &mut self,
        alloc: Global,
        wire: &mut N,
        out: &mut W,
    ) -> Result<(), ToolFault>
        ensures { ServeEnds self.old.server.table.request ((self.new.server ≡ self.old.server) × (N.calls wire.new ≡ N.calls wire.old) × (K.calls self.new.keeper ≡ K.calls self.old.keeper)) (ServiceRuns K.usable K.calls self.old.limit self.old.server self.new.server self.old.keeper self.new.keeper (N.calls wire.old) (N.calls wire.new)) (W.contents out.old) (W.contents out.new) result }
    {
        let port = self.server.table().request();
        write_line(alloc, "serving on port ", port as u64, "", out)?;
        let taken = self.make_turns(wire);
        write_line(alloc, "taken ", taken, "", out)
    }

    /// Prints that the server serves on its port, makes its turns or rounds, and prints how many files were taken. Once the
    /// keeper is not usable, no further one is made. The observer is notified before and after.
    ///
    /// # Errors
    ///
    /// `Write` if the writer fails, and `Memory` if out of memory for a line. If that is the first line no turn or round
    /// was made.
    pub fn serve<N: ReadyWire, W: Write>(
        &mut self,
        alloc: Global,
        wire: &mut N,
        out: &mut W,
    ) -> Result<(), ToolFault>
        ensures { ServeEnds self.old.server.table.request ((self.new.server ≡ self.old.server) × (N.calls wire.new ≡ N.calls wire.old) × (K.calls self.new.keeper ≡ K.calls self.old.keeper)) (ServiceRuns K.usable K.calls self.old.limit self.old.server self.new.server self.old.keeper self.new.keeper (N.calls wire.old) (N.calls wire.new)) (W.contents out.old) (W.contents out.new) result }
    {
        let host = self.host;
        let port = self.server.table().request();
        self.observer
            .on_started(Endpoint { host, port }, self.folder, self.server.table());
        let done = self.serve_turns(alloc, wire, out);
        self.observer.on_stopped();
        done
    }

    /// Serves, reports why the service failed, if it did, and returns the status: 0 if all turns or rounds were made and
    /// both lines printed, otherwise 2.
    pub fn run<N: ReadyWire, W: Write, E: Write>(
        &mut self,
        alloc: Global,
        wire: &mut N,
        out: &mut W,
        errors: &mut E,
    ) -> u8
        requires fresh { self.old.server ≡ fresh_server self.old.server.policies self.old.server.table }
        ensures served { (turns : ℕ) → IsLimitFor turns self.old.limit → Served self.old.server.table.request turns self.old.server.policies self.old.server.table result (K.usable self.new.keeper) (N.calls wire.old) (N.calls wire.new) (K.calls self.old.keeper) (K.calls self.new.keeper) (W.contents out.old) (W.contents out.new) }
        ensures silent { result ≡ 0 → errors.new ≡ errors.old }
        ensures printed { (done : Result (Unit {0}) Fault) × (replaced : Option Replacement) × ReportsServed (K.usable self.new.keeper) done replaced (unwrap_or (option_map (λ name. name.now) self.old.folder) (codes "memory")) (E.contents errors.old) (E.contents errors.new) }
    {
        let name = self.folder.unwrap_or("memory");
        let done = self.serve(alloc, wire, out);
        end_serving(
            done,
            self.keeper.is_usable(),
            self.keeper.replaced(),
            name,
            errors,
        )
    }
}
