//! The command `sync`.

ghost use Rattle.std.specs.Prelude.{◌≡◌, ◌≤◌, ℕ, false, IfOk, IfSome, IfNone};
ghost use Rattle.clap.specs.Matches.{found_of};
ghost use Rattle.clap.specs.Words.{app_of, rows_of, rule_of};
ghost use Rattle.clap.specs.declared.builder.command.Command.TheViews.{out-Command};
ghost use Rattle.command_line.specs.Arguments.{Answers};
ghost use Rattle.archive_arguments.specs.Arguments.{HasNumber, number_rule, port_option};
ghost use Rattle.archive_commands.specs.Sync.{AsksToSync, HasPlace, SyncRan, from_rule, place_rule, sync_app, sync_places_app, to_port_option, to_rule};

use crate::arguments::flag_argument;
use crate::locating::locate;
use crate::reporting::no_host;
use crate::resolver::Resolver;
use crate::syncing::{Ends, sync_archives};
use crate::target::Target;
use crate::transfer_wire::TransferWire;
use archive_arguments::{
    MAX_PORT, PORT, flag_given, number_argument, number_given, port_argument, port_given,
};
use clap::{Arg, ArgMatches, Command};
use command_line::{new_command, string_given};
use std::alloc::{AllocError, Global};
use std::io::Write;
use tftp_packet::Endpoint;

/// What `sync` is asked for.
#[derive(Drop)]
pub struct SyncArguments {
    /// The archive whose better solutions are brought.
    pub from: Target,
    /// The archive that they are brought to.
    pub to: Target,
    /// Whether what is better at `to` is brought to `from` too.
    pub both: bool,
    /// Whether archives without a level in common are not refused.
    pub new_archives: bool,
}

// What the help of the command begins and ends with.
const ABOUT: &str = "Bring what is better in one archive to another";

const HELP: &str =
    "Fetches both collections of each ruleset, and sends only what is better. To run it again is always safe.\n\nExample: tws sync --both archive.example 127.0.0.1";

// The address of an archive.
fn place_argument<'a>(alloc: Global, name: &'a str, value: &'a str, help: &'a str) -> Arg<'a>
    ensures rule { rule_of result ≡ place_rule name.now }
    ensures local { result.global ≡ false }
{
    Arg::new(alloc, name)
        .value_name(value)
        .required(true)
        .help(help)
}

fn to_port_argument<'a>(alloc: Global) -> Arg<'a>
    ensures rule { rule_of result ≡ number_rule to_port_option }
    ensures local { result.global ≡ false }
{
    number_argument(
        alloc,
        "to-port",
        "N",
        MAX_PORT as u64,
        "The port of TO, 6969 if none is given",
    )
}

// The command with only what says where the archives are.
fn places_command<'a>(alloc: Global) -> Result<Command<'a>, AllocError>
    ensures app { IfOk result (λ command. app_of command ≡ sync_places_app) }
    ensures local { IfOk result (λ command. (out-Command command).has_globals ≡ false) }
{
    new_command(alloc, "sync", ABOUT, HELP)
        .arg(place_argument(
            alloc,
            "from",
            "FROM",
            "The IPv4 address or the name of the archive with what is better",
        ))?
        .arg(place_argument(alloc, "to", "TO", "That of the archive that it is sent to"))?
        .arg(port_argument(alloc))?
        .arg(to_port_argument(alloc))
}

/// The command line of `sync`.
///
/// # Errors
///
/// If an allocation was refused.
pub fn command<'a>(alloc: Global) -> Result<Command<'a>, AllocError>
    ensures app { IfOk result (λ command. app_of command ≡ sync_app) }
    ensures local { IfOk result (λ command. (out-Command command).has_globals ≡ false) }
{
    places_command(alloc)?
        .arg(flag_argument(alloc, "both", "Send what is better at TO to FROM too"))?
        .arg(flag_argument(alloc, "new", "Even if no level is in a collection of both"))
}

// The port of `TO`; `None` if what was given is out of range.
fn to_port_given(words: &ArgMatches) -> Option<u16>
    ensures some { IfSome result (HasNumber to_port_option (rows_of (found_of words.now))) }
    ensures none { IfNone result ((n : ℕ) → HasNumber to_port_option (rows_of (found_of words.now)) n → ⊥) }
{
    let port = number_given(words, "to-port", PORT as u64, MAX_PORT as u64)?;
    Some(port as u16)
}

// The archive to bring from.
fn from_given(alloc: Global, words: &ArgMatches) -> Result<Option<Target>, AllocError>
    ensures { IfOk result (Answers (HasPlace from_rule port_option (rows_of (found_of words.now)))) }
{
    let Some(port) = port_given(words) else {
        return Ok(None);
    };
    let Some(address) = string_given(alloc, words, "from")? else {
        return Ok(None);
    };
    Ok(Some(Target { address, port }))
}

// The archive to bring to.
fn to_given(alloc: Global, words: &ArgMatches) -> Result<Option<Target>, AllocError>
    ensures { IfOk result (Answers (HasPlace to_rule to_port_option (rows_of (found_of words.now)))) }
{
    let Some(port) = to_port_given(words) else {
        return Ok(None);
    };
    let Some(address) = string_given(alloc, words, "to")? else {
        return Ok(None);
    };
    Ok(Some(Target { address, port }))
}

/// What the arguments ask for; `None` if they name no archive, or a port is out of range.
///
/// # Errors
///
/// If an allocation was refused.
pub fn asked(alloc: Global, words: &ArgMatches) -> Result<Option<SyncArguments>, AllocError>
    ensures { IfOk result (Answers (AsksToSync (rows_of (found_of words.now)))) }
{
    let Some(from) = from_given(alloc, words)? else {
        return Ok(None);
    };
    let Some(to) = to_given(alloc, words)? else {
        return Ok(None);
    };
    let both = flag_given(words, "both");
    let new_archives = flag_given(words, "new");
    Ok(Some(SyncArguments {
        from,
        to,
        both,
        new_archives,
    }))
}

/// Runs `sync` over this wire, and returns the status: 1 also if the archives have no level in common, and 3 if what was
/// fetched is not a solution file; then nothing was sent.
pub fn run<S: Resolver, N: TransferWire, W: Write, E: Write>(
    system: &S,
    wire: &mut N,
    alloc: Global,
    arguments: &SyncArguments,
    out: &mut W,
    errors: &mut E,
) -> u8
    ensures ran { SyncRan (S.host_of system.now) arguments.now result (N.calls wire.old) (N.calls wire.new) (W.contents out.old) (W.contents out.new) }
    // The clauses below hold also for a writer without ghost contents.
    ensures usage { result ≡ 1 → out.new ≡ out.old }
    ensures unreadable { result ≡ 3 → out.new ≡ out.old }
    ensures few { result ≤ 4 }
    ensures silent { result ≡ 0 → errors.new ≡ errors.old }
{
    let from = locate(system, arguments.from.address.as_str());
    let to = locate(system, arguments.to.address.as_str());
    let Some(there) = from else {
        return no_host(arguments.from.address.as_str(), errors);
    };
    let Some(here) = to else {
        return no_host(arguments.to.address.as_str(), errors);
    };
    let ends = Ends {
        from: Endpoint {
            host: there,
            port: arguments.from.port,
        },
        to: Endpoint {
            host: here,
            port: arguments.to.port,
        },
    };
    sync_archives(wire, alloc, ends, arguments, out, errors)
}
