//! A program of several commands: what its command line begins with, and what its arguments find there.

ghost use Rattle.std.specs.Prelude.{◌≡◌, true, map, IfOk, IfErr, string_bytes};
ghost use Rattle.clap.specs.Words.{app_of, is_simple_and_free};
ghost use Rattle.command_line.specs.CommandLine.{AddsCommand, FindsCommand, HasFault, IsUnknown, top_app};

use crate::job_fault::JobFault;
use crate::version::VERSION;
use clap::error::ErrorKind;
use clap::{ArgMatches, Command};
use std::alloc::{AllocError, Global};

/// The program without its commands.
pub fn new_program<'a>(alloc: Global) -> Command<'a>
    ensures { app_of result ≡ top_app }
{
    Command::new(alloc, "tws")
        .about("Lists, packs and collects Tile World solution files, and archives them by TFTP")
        .version(VERSION)
        .arg_required_else_help(true)
        .subcommand_required(true)
}

/// Adds a command to the command line of a program.
///
/// # Errors
///
/// Out of memory, also if one of the two could not be built.
pub fn add_command<'a>(
    program: Result<Command<'a>, AllocError>,
    command: Result<Command<'a>, AllocError>,
) -> Result<Command<'a>, AllocError>
    ensures { IfOk result (λ built. AddsCommand program.entry command.entry (app_of built)) }
{
    program?.subcommand(command?)
}

/// What the arguments, the first of which is the program's name, find in this command line.
///
/// # Errors
///
/// `Words` if they have a fault or ask for help; `Memory` if an allocation was refused.
pub fn found_in<'a>(command: Command<'a>, words: &'a [String]) -> Result<ArgMatches<'a>, JobFault>
    requires { is_simple_and_free (app_of command) ≡ true }
    ensures found { IfOk result (FindsCommand (app_of command.entry) (map string_bytes words.now)) }
    ensures refused { IfErr result (HasFault (app_of command.entry) (map string_bytes words.now)) }
{
    Ok(command.try_get_matches_from(words)?)
}

/// The fault of arguments that ask for nothing that there is in this command line.
pub fn unknown_command(mut command: Command) -> JobFault
    ensures { IsUnknown result }
{
    match command.error(ErrorKind::InvalidSubcommand, "no such command") {
        Ok(error) => JobFault::Words(error),
        Err(_) => JobFault::Memory,
    }
}
