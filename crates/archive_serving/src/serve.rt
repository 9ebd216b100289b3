//! The command `serve`: its arguments.

ghost use Rattle.std.specs.Prelude.{◌≡◌, ◌<◌, ◌≤◌, false, Option, IfOk, IfSome, IfNone, Some, None, option_map, string_bytes};
ghost use Rattle.clap.specs.Matches.{found_of};
ghost use Rattle.clap.specs.Words.{app_of, first_of, rows_of, rule_of};
ghost use Rattle.clap.specs.declared.builder.command.Command.TheViews.{out-Command};
ghost use Rattle.command_line.specs.Arguments.{Answers};
ghost use Rattle.archive_arguments.specs.Arguments.{number_rule};
ghost use Rattle.archive_serving.specs.Ports.{ArePorts};
ghost use Rattle.archive_serving.specs.declared.ports.Ports.{Ports as PortsModel};
ghost use Rattle.archive_serving.specs.Serve.{AsksToServe, HasHost, IsNoHost, any_rule, first_group, given_address, history_limit_option, limit_option, log_rule, logging_app, numbers_app, per_host_option, places_app, ports_rule, serve_app, text_rule, turns_option};

use crate::limits::{HISTORY, MAX_HISTORY, PER_HOST, TURNS};
use crate::ports::Ports;
use archive_arguments::{
    Address, flag_given, number_argument, number_given, port_argument, port_given,
};
use archive_table::LIVE;
use clap::builder::ArgAction;
use clap::{Arg, ArgMatches, Command};
use command_line::{new_command, string_given, text_given};
use std::alloc::{AllocError, Global};
use tftp_ends::MAX_FILE;

/// What `serve` is asked for.
#[derive(Drop)]
pub struct ServeArguments {
    /// The request port.
    pub port: u16,
    /// After how many turns the server stops; with `TURNS` it runs until it is stopped.
    pub turns: u64,
    /// The most transfers of one host.
    pub per_host: u64,
    /// The most bytes that the text of a collection may have.
    pub limit: u64,
    /// The address of this host to listen at, as it was typed; every address if `None`.
    pub address: Option<String>,
    /// The addresses of the hosts that may put, with commas between them; every host if `None`.
    pub put_from: Option<String>,
    /// The ports for transfers; those for private use (RFC 6335 section 6) if `None`.
    pub ports: Option<Ports>,
    /// The folder that keeps the collections, if any.
    pub dir: Option<String>,
    /// Whether solutions are kept that stop Tile World.
    pub any_solution: bool,
    /// Whether each event is logged to standard error.
    pub log: bool,
    /// The folder that keeps each solution file that was taken, if any.
    pub history: Option<String>,
    /// With so many bytes in that folder no collection is changed.
    pub history_limit: u64,
}

impl ServeArguments {
    /// The folder that keeps the collections, if one was given.
    pub fn folder(&self) -> Option<&str>
        ensures some { IfSome result (λ dir. option_map string_bytes self.now.dir ≡ Some dir.now) }
        ensures none { IfNone result (self.now.dir ≡ None) }
    {
        match &self.dir {
            Some(dir) => Some(dir.as_str()),
            None => None,
        }
    }

    /// The host of the address that was given; 0, which is every address of this host, if none was. `None` if what was
    /// given is not an address, or one of a group or of every host (224.0.0.0 and above).
    pub fn host(&self) -> Option<u32>
        ensures some { IfSome result (HasHost (given_address self.now)) }
        ensures none { IfNone result (IsNoHost (given_address self.now)) }
    {
        let Some(text) = &self.address else {
            return Some(0);
        };
        match Address::read(text.as_str()) {
            Some(address) => of_one_host(address),
            None => None,
        }
    }
}

// The first address of a group (RFC 1112 section 4). Those above are of groups, reserved, or of every host.
const GROUPS: u32 = 0xE000_0000;

// The host of an address that one host can have.
fn of_one_host(address: Address) -> Option<u32>
    ensures some { IfSome result (λ host. (host ≡ address.host) × (host < first_group)) }
    ensures none { IfNone result (first_group ≤ address.host) }
{
    if address.host < GROUPS {
        Some(address.host)
    } else {
        None
    }
}

// An option with a text.
fn text_argument<'a>(alloc: Global, name: &'a str, value: &'a str, help: &'a str) -> Arg<'a>
    ensures rule { rule_of result ≡ text_rule name.now }
    ensures local { result.global ≡ false }
{
    Arg::new(alloc, name)
        .long(name)
        .value_name(value)
        .help(help)
}

fn log_argument<'a>(alloc: Global) -> Arg<'a>
    ensures rule { rule_of result ≡ log_rule }
    ensures local { result.global ≡ false }
{
    Arg::new(alloc, "log")
        .long("log")
        .action(ArgAction::SetTrue)
        .help("With a line on standard error for each event")
}

fn any_argument<'a>(alloc: Global) -> Arg<'a>
    ensures rule { rule_of result ≡ any_rule }
    ensures local { result.global ≡ false }
{
    Arg::new(alloc, "any-solution")
        .long("any-solution")
        .action(ArgAction::SetTrue)
        .help("Keep solutions without moves and of level 0 too, which stop Tile World")
}

fn turns_argument<'a>(alloc: Global) -> Arg<'a>
    ensures rule { rule_of result ≡ number_rule turns_option }
    ensures local { result.global ≡ false }
{
    number_argument(alloc, "turns", "N", TURNS, "Stop after this many turns")
}

fn per_host_argument<'a>(alloc: Global) -> Arg<'a>
    ensures rule { rule_of result ≡ number_rule per_host_option }
    ensures local { result.global ≡ false }
{
    number_argument(
        alloc,
        "per-host",
        "N",
        LIVE as u64,
        "At most this many transfers of one host, 32 if none is given",
    )
}

fn limit_argument<'a>(alloc: Global) -> Arg<'a>
    ensures rule { rule_of result ≡ number_rule limit_option }
    ensures local { result.global ≡ false }
{
    number_argument(
        alloc,
        "limit",
        "BYTES",
        MAX_FILE,
        "Keep no collection of more bytes; all that can be served if none is given",
    )
}

fn history_limit_argument<'a>(alloc: Global) -> Arg<'a>
    ensures rule { rule_of result ≡ number_rule history_limit_option }
    ensures local { result.global ≡ false }
{
    number_argument(
        alloc,
        "history-limit",
        "BYTES",
        MAX_HISTORY,
        "Change no collection once the history has as many bytes, 10000000000 if none is given",
    )
}

// The command with only those options that are numbers, without that of the history.
fn numbers_command<'a>(alloc: Global) -> Result<Command<'a>, AllocError>
    ensures app { IfOk result (λ command. app_of command ≡ numbers_app) }
    ensures local { IfOk result (λ command. (out-Command command).has_globals ≡ false) }
{
    new_command(alloc, "serve", ABOUT, HELP)
        .arg(port_argument(alloc))?
        .arg(turns_argument(alloc))?
        .arg(per_host_argument(alloc))?
        .arg(limit_argument(alloc))
}

// What the help of the command begins and ends with.
const ABOUT: &str = "Serve the archive by TFTP";

const HELP: &str =
    "Takes files that are sent, and serves lynx.tws and ms.tws, until it is stopped.\n\nExample: tws serve --dir /var/lib/tws";

// The command with the options that say where it serves, who may put, and what keeps the collections.
fn places_command<'a>(alloc: Global) -> Result<Command<'a>, AllocError>
    ensures app { IfOk result (λ command. app_of command ≡ places_app) }
    ensures local { IfOk result (λ command. (out-Command command).has_globals ≡ false) }
{
    numbers_command(alloc)?
        .arg(text_argument(
            alloc,
            "address",
            "ADDRESS",
            "This IPv4 address of this host, every one if none is given",
        ))?
        .arg(text_argument(
            alloc,
            "put-from",
            "ADDRESS,..",
            "Take puts from these hosts alone, 16 at most",
        ))?
        .arg(text_argument(alloc, "dir", "DIR", "The folder that keeps the collections"))
}

// The command with all options but `--any-solution` and `--ports`.
fn logging_command<'a>(alloc: Global) -> Result<Command<'a>, AllocError>
    ensures app { IfOk result (λ command. app_of command ≡ logging_app) }
    ensures local { IfOk result (λ command. (out-Command command).has_globals ≡ false) }
{
    places_command(alloc)?
        .arg(log_argument(alloc))?
        .arg(text_argument(
            alloc,
            "history",
            "DIR",
            "The folder that keeps each solution file that was taken",
        ))?
        .arg(history_limit_argument(alloc))
}

/// The command line of `serve`.
///
/// # Errors
///
/// If an allocation was refused.
pub fn command<'a>(alloc: Global) -> Result<Command<'a>, AllocError>
    ensures app { IfOk result (λ command. app_of command ≡ serve_app) }
    ensures local { IfOk result (λ command. (out-Command command).has_globals ≡ false) }
{
    logging_command(alloc)?
        .arg(any_argument(alloc))?
        .arg(text_argument(
            alloc,
            "ports",
            "FROM-TO",
            "The ports for transfers, at least 128; 49152-65535 if none are given",
        ))
}

// The ports that were given, if any were; `None` if what was given is no range of them.
fn ports_given(words: &ArgMatches) -> Option<Option<Ports>>
    ensures some { IfSome result (ArePorts (first_of ports_rule.id (rows_of (found_of words.now)))) }
    ensures none { IfNone result ((ports : Option PortsModel) → ArePorts (first_of ports_rule.id (rows_of (found_of words.now))) ports → ⊥) }
{
    let Some(text) = text_given(words, "ports") else {
        return Some(None);
    };
    match Ports::read(text) {
        Some(ports) => Some(Some(ports)),
        None => None,
    }
}

/// What the arguments ask for; `None` if a number is out of range.
pub fn asked(alloc: Global, words: &ArgMatches) -> Result<Option<ServeArguments>, AllocError>
    ensures { IfOk result (Answers (AsksToServe (rows_of (found_of words.now)))) }
{
    let Some(port) = port_given(words) else {
        return Ok(None);
    };
    let Some(turns) = number_given(words, "turns", TURNS, TURNS) else {
        return Ok(None);
    };
    let Some(per_host) = number_given(words, "per-host", PER_HOST, LIVE as u64) else {
        return Ok(None);
    };
    let Some(limit) = number_given(words, "limit", MAX_FILE, MAX_FILE) else {
        return Ok(None);
    };
    let Some(history_limit) = number_given(words, "history-limit", HISTORY, MAX_HISTORY) else {
        return Ok(None);
    };
    let Some(ports) = ports_given(words) else {
        return Ok(None);
    };
    let address = string_given(alloc, words, "address")?;
    let put_from = string_given(alloc, words, "put-from")?;
    let dir = string_given(alloc, words, "dir")?;
    let any_solution = flag_given(words, "any-solution");
    let log = flag_given(words, "log");
    let history = string_given(alloc, words, "history")?;
    Ok(Some(ServeArguments {
        port,
        turns,
        per_host,
        limit,
        address,
        put_from,
        ports,
        dir,
        any_solution,
        log,
        history,
        history_limit,
    }))
}
