//! The command `serve` over the system: its folder, its port, its log and its history.

ghost use Rattle.std.specs.Prelude.{◌≡◌, ◌≤◌, Bool, List, [], min, unwrap_or, Some, None, IfSome, option_map, string_bytes};
ghost use Rattle.tftp_ends.specs.declared.limits.TheConstants.{MAX_FILE};
ghost use Rattle.archive_keepers.specs.Limited.{own_calls};
ghost use Rattle.archive_keepers.specs.Readable.{no_counts};
ghost use Rattle.archive_table.specs.Keeper.{Keeping};
ghost use Rattle.archive_server.specs.Turn.{fresh_server, open_policies};
ghost use Rattle.archive_serving.specs.Serve.{HasPolicies, ServeRan, Served, ServedFrom};

use crate::served_folder::{keeper_of, report_unloaded};
use archive_arguments::bad_address;
use archive_host::{DirKeeper, HistoryRoom, HostFolder, RecordingKeeper};
use archive_keepers::{NoKeeper, Readable, ServedKeeper};
use archive_log::{ReportingKeeper, ServerLog};
use archive_pace::{PacedWire, SparingWire};
use archive_server::{Policies, Server, ServerObserver};
use archive_serving::{ServeArguments, Service, TURNS};
use archive_sockets::UdpWire;
use archive_table::{Keeper, NoObserver};
use archive_wire::ReadyWire;
use arrayvec::ArrayString;
use command_line::{FAILED, ToolFault, report, report_cause};
use folders::{Folder, clear_draft};
use log::sink::Console;
use std::alloc::{AllocError, Global};
use std::fmt::Write as _;
use std::fs::File;
use std::io;
use std::io::Write;
use std::net::Net;
use std::random::RandomSource;
use std::rt::Files;
use std::time::Clock;
use tftp_packet::Endpoint;

// The names under which the folder of a history is tried: nothing is left there.
const TRIED: &str = "history.new";

const HISTORY: &str = "history";

// The longest name of a port, `port 65535`.
const PORT_NAME: usize = 10;

// Reports that the request port cannot be opened, with the system's cause on a second line, and returns the status.
fn no_port<E: Write>(port: u16, cause: &io::Error, errors: &mut E) -> u8
    ensures { result ≡ 2 }
{
    let status = report(ToolFault::Socket, &[], errors);
    let mut name = ArrayString::<PORT_NAME>::new();
    let _ = write!(name, "port {port}");
    report_cause(status, name.as_str(), cause, errors)
}

// Reports that the folder of the history cannot be opened, with the system's cause on a second line, and returns the
// status.
fn no_history<E: Write>(cause: &io::Error, name: &str, errors: &mut E) -> u8
    ensures { result ≡ 2 }
{
    let _ = writeln!(errors, "tws: {name}: no folder");
    report_cause(FAILED, name, cause, errors)
}

// Reports that the history cannot be written, with the system's cause if it is known.
fn no_record<E: Write>(cause: Option<io::Error>, name: &str, errors: &mut E) {
    let _ = match cause {
        Some(cause) => writeln!(errors, "tws: {name}: folder not writable: {cause}"),
        None => writeln!(errors, "tws: {name}: folder not writable"),
    };
}

// Standard error, if there is to be a log.
fn console<P: Eprint + Copy>(rt: P, is_logged: bool) -> Option<Console<P>> {
    if is_logged { Some(Console(rt)) } else { None }
}

// Opens the folder of a history of at most so many bytes.
fn open_history<P: Files<File = File> + Clock + AllocGlobal + Copy>(
    rt: P,
    dir: &str,
    limit: u64,
) -> io::Result<HostFolder<P>> {
    let mut history = HostFolder::open_unlocked(rt, dir)?;
    history.set_room(HistoryRoom::new(rt, dir, limit)?);
    Ok(history)
}

// The history that was asked for, if one was. `None` if its folder cannot be opened or written, which is reported.
fn history_of<P: Files<File = File> + Clock + AllocGlobal + Copy, E: Write>(
    rt: P,
    arguments: &ServeArguments,
    errors: &mut E,
) -> Option<Option<HostFolder<P>>>
    ensures silent { IfSome result (λ _. errors.new ≡ errors.old) }
{
    let Some(dir) = &arguments.history else {
        return Some(None);
    };
    let mut history = match open_history(rt, dir.as_str(), arguments.history_limit) {
        Ok(history) => history,
        Err(cause) => {
            no_history(&cause, dir.as_str(), errors);
            return None;
        }
    };
    if clear_draft(&mut history, TRIED, HISTORY).is_err() || history.sync_folder().is_err() {
        no_record(history.last_error(), dir.as_str(), errors);
        return None;
    }
    Some(Some(history))
}

// Where and how a server serves: this host's address, the policies, and what was asked for.
#[derive(Drop)]
struct Serving<'a, P> {
    rt: P,
    alloc: Global,
    arguments: &'a ServeArguments,
    host: u32,
    policies: Policies,
}

impl<'a, P: Files<File = File> + Net + Clock + RandomSource + Eprint + AllocGlobal + Copy> Serving<
    'a,
    P,
> {
    // A wire that has the request port, and opens the ports for transfers that were asked for.
    fn listen(&self) -> io::Result<UdpWire<P>> {
        let (host, port) = (self.host, self.arguments.port);
        let mut wire = UdpWire::listen_at(self.rt, Endpoint { host, port })?;
        if let Some(ports) = self.arguments.ports {
            wire.use_ports(ports.first, ports.last);
        }
        Ok(wire)
    }

    // The wire for rounds: it paces what is kept, and spares peers that were never heard.
    fn policed(&self, wire: UdpWire<P>) -> PacedWire<SparingWire<UdpWire<P>>, P> {
        PacedWire::new(
            self.alloc,
            SparingWire::new(wire),
            self.rt,
            self.arguments.port,
        )
    }

    // Serves over a wire with this server, keeper and observer, and returns the status.
    fn serve_over<
        N: ReadyWire,
        K: ServedKeeper + Drop,
        O: ServerObserver + Drop,
        W: Write,
        E: Write,
    >(
        &self,
        wire: &mut N,
        server: Server,
        keeper: ReportingKeeper<K, P, Option<Console<P>>>,
        observer: O,
        out: &mut W,
        errors: &mut E,
    ) -> u8
        requires fresh { server ≡ fresh_server open_policies server.table }
        requires port { server.table.request ≡ self.now.arguments.now.port }
        // What is longer is refused by such a keeper.
        requires limit { keeper.keeper.limit ≡ min self.now.arguments.now.limit MAX_FILE }
        ensures served { (last : K) × (entries : List Keeping) × Served self.now.arguments.now.port self.now.arguments.now.turns self.now.policies server.table result (K.usable last) (N.calls wire.old) (N.calls wire.new) (own_calls (K.calls keeper.keeper.keeper) keeper.keeper.entries) (own_calls (K.calls last) entries) (W.contents out.old) (W.contents out.new) }
        ensures silent { result ≡ 0 → errors.new ≡ errors.old }
    {
        Service::new(
            self.arguments,
            self.host,
            self.policies,
            server,
            keeper,
            observer,
        )
        .run(self.alloc, wire, out, errors)
    }

    // Serves with this server, keeper and observer, and returns the status.
    fn serve_observed<K: ServedKeeper + Drop, O: ServerObserver + Drop, W: Write, E: Write>(
        &self,
        server: Server,
        keeper: ReportingKeeper<K, P, Option<Console<P>>>,
        observer: O,
        out: &mut W,
        errors: &mut E,
    ) -> u8
        requires fresh { server ≡ fresh_server open_policies server.table }
        requires port { server.table.request ≡ self.now.arguments.now.port }
        // What is longer is refused by such a keeper.
        requires limit { keeper.keeper.limit ≡ min self.now.arguments.now.limit MAX_FILE }
        ensures served { (last : K) × (entries : List Keeping) × Served self.now.arguments.now.port self.now.arguments.now.turns self.now.policies server.table result (K.usable last) None None (own_calls (K.calls keeper.keeper.keeper) keeper.keeper.entries) (own_calls (K.calls last) entries) (W.contents out.old) (W.contents out.new) }
        ensures silent { result ≡ 0 → errors.new ≡ errors.old }
    {
        let mut wire = match self.listen() {
            Ok(wire) => wire,
            Err(cause) => {
                drop(server);
                drop(keeper);
                drop(observer);
                return no_port(self.arguments.port, &cause, errors);
            }
        };
        if self.arguments.turns < TURNS {
            let status = self.serve_over(&mut wire, server, keeper, observer, out, errors);
            drop(wire);
            return status;
        }
        let mut wire = self.policed(wire);
        let status = self.serve_over(&mut wire, server, keeper, observer, out, errors);
        drop(wire);
        status
    }

    // The room of the history that was asked for, if one was.
    fn room(&self) -> Result<Option<HistoryRoom<P>>, AllocError> {
        match &self.arguments.history {
            Some(dir) => {
                let limit = self.arguments.history_limit;
                Ok(Some(HistoryRoom::new(self.rt, dir.as_str(), limit)?))
            }
            None => Ok(None),
        }
    }

    // Serves with this server and keeper, with the log and the history that were asked for.
    fn serve_kept<K: ServedKeeper + Drop, W: Write, E: Write>(
        &self,
        server: Server,
        keeper: K,
        out: &mut W,
        errors: &mut E,
    ) -> u8
        requires fresh { server ≡ fresh_server open_policies server.table }
        requires port { server.table.request ≡ self.now.arguments.now.port }
        ensures served { (usable : Bool) × Served self.now.arguments.now.port self.now.arguments.now.turns self.now.policies server.table result usable None None None None (W.contents out.old) (W.contents out.new) }
        ensures silent { result ≡ 0 → errors.new ≡ errors.old }
    {
        let arguments = self.arguments;
        let Ok(room) = self.room() else {
            drop(server);
            drop(keeper);
            return report(ToolFault::Memory, &[], errors);
        };
        let log = console(self.rt, arguments.log);
        let keeper = RecordingKeeper::new(keeper, room);
        let keeper = ReportingKeeper::new(keeper, arguments.limit, self.rt, log);
        if !arguments.log && arguments.history.is_none() {
            return self.serve_observed(server, keeper, NoObserver, out, errors);
        }
        match history_of(self.rt, arguments, errors) {
            Some(history) => {
                let log = console(self.rt, arguments.log);
                let observer = ServerLog::new(self.alloc, self.rt, log, history);
                self.serve_observed(server, keeper, observer, out, errors)
            }
            None => {
                drop(server);
                drop(keeper);
                FAILED
            }
        }
    }

    // A keeper over this one that takes the solutions which were asked for.
    fn readable<K: Keeper>(&self, keeper: K) -> Readable<K>
        ensures { result ≡ record { keeper = keeper; any = self.now.arguments.now.any_solution; counts = no_counts; refused = 0; entries = unwrap_or (K.calls keeper) [] } }
    {
        Readable::new(keeper, self.alloc, self.arguments.any_solution)
    }

    // Serves with what this keeper of the folder of this name has.
    fn serve_folder<W: Write, E: Write>(
        &self,
        mut keeper: Readable<DirKeeper<P>>,
        name: &str,
        out: &mut W,
        errors: &mut E,
    ) -> u8
        requires folder { option_map string_bytes self.now.arguments.now.dir ≡ Some name.now }
        requires policies { HasPolicies self.now.arguments.now self.now.policies }
        ensures served { ServedFrom self.now.arguments.now result (W.contents out.old) (W.contents out.new) }
        ensures silent { result ≡ 0 → errors.new ≡ errors.old }
    {
        match Server::load(self.alloc, self.arguments.port, &mut keeper) {
            Ok(server) => self.serve_kept(server, keeper, out, errors),
            Err(_) => {
                let status = report_unloaded(self.alloc, &mut keeper, name, errors);
                drop(keeper);
                status
            }
        }
    }

    // Serves with the collections kept in the folder that was given, if one was.
    fn serve<W: Write, E: Write>(&self, out: &mut W, errors: &mut E) -> u8
        requires { HasPolicies self.now.arguments.now self.now.policies }
        ensures served { ServedFrom self.now.arguments.now result (W.contents out.old) (W.contents out.new) }
        ensures silent { result ≡ 0 → errors.new ≡ errors.old }
    {
        let Some(dir) = self.arguments.folder() else {
            let server = Server::new(self.alloc, self.arguments.port);
            return self.serve_kept(server, self.readable(NoKeeper), out, errors);
        };
        match keeper_of(self.rt, dir, errors) {
            Some(keeper) => self.serve_folder(self.readable(keeper), dir, out, errors),
            None => FAILED,
        }
    }
}

/// Runs `serve`, and returns the status.
pub fn run_serve<
    P: Files<File = File> + Net + Clock + RandomSource + Eprint + AllocGlobal + Copy,
    W: Write,
    E: Write,
>(rt: P, alloc: Global, arguments: &ServeArguments, out: &mut W, errors: &mut E) -> u8
    ensures ran { ServeRan arguments.now result (W.contents out.old) (W.contents out.new) }
    ensures usage { result ≡ 1 → out.new ≡ out.old }
    ensures status { result ≤ 2 }
    ensures silent { result ≡ 0 → errors.new ≡ errors.old }
{
    let Some(host) = arguments.host() else {
        let address = arguments.address.as_deref().unwrap_or("");
        return bad_address(address, "not an IPv4 address that a host can have", errors);
    };
    let Some(policies) = arguments.policies() else {
        let hosts = arguments.put_from.as_deref().unwrap_or("");
        return bad_address(hosts, "not a list of at most 16 IPv4 addresses", errors);
    };
    let serving = Serving {
        rt,
        alloc,
        arguments,
        host,
        policies,
    };
    serving.serve(out, errors)
}
