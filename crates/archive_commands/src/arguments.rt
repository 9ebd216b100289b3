//! The arguments that several commands of the archive share, and what was given for an argument.

ghost use Rattle.std.specs.Prelude.{◌≡◌, false, IfOk};
ghost use Rattle.clap.specs.Matches.{found_of};
ghost use Rattle.clap.specs.Words.{rows_of, rule_of};
ghost use Rattle.command_line.specs.Arguments.{Answers, files_rule};
ghost use Rattle.archive_commands.specs.Arguments.{HasTarget, address_rule, file_rule, flag_rule};

use crate::target::Target;
use archive_arguments::port_given;
use clap::builder::ArgAction;
use clap::{Arg, ArgMatches};
use command_line::string_given;
use std::alloc::{AllocError, Global};

// ---- the arguments

pub(crate) fn address_argument<'a>(alloc: Global) -> Arg<'a>
    ensures rule { rule_of result ≡ address_rule }
    ensures local { result.global ≡ false }
{
    Arg::new(alloc, "address")
        .value_name("ADDRESS")
        .required(true)
        .help("The server's IPv4 address, such as 192.0.2.1, or its name")
}

pub(crate) fn file_argument<'a>(alloc: Global, help: &'a str) -> Arg<'a>
    ensures rule { rule_of result ≡ file_rule }
    ensures local { result.global ≡ false }
{
    Arg::new(alloc, "file")
        .value_name("FILE")
        .required(true)
        .help(help)
}

/// `FILE..`
pub(crate) fn files_argument<'a>(alloc: Global, help: &'a str) -> Arg<'a>
    ensures rule { rule_of result ≡ files_rule }
    ensures local { result.global ≡ false }
{
    Arg::new(alloc, "files")
        .value_name("FILE")
        .num_args(1..)
        .required(true)
        .help(help)
}

/// A flag.
pub(crate) fn flag_argument<'a>(alloc: Global, name: &'a str, help: &'a str) -> Arg<'a>
    ensures rule { rule_of result ≡ flag_rule name.now }
    ensures local { result.global ≡ false }
{
    Arg::new(alloc, name)
        .long(name)
        .action(ArgAction::SetTrue)
        .help(help)
}

// ---- what was given

/// Where the archive is that was given; `None` if no address was, or the port is out of range.
pub(crate) fn target_given(alloc: Global, words: &ArgMatches) -> Result<Option<Target>, AllocError>
    ensures { IfOk result (Answers (HasTarget (rows_of (found_of words.now)))) }
{
    let Some(port) = port_given(words) else {
        return Ok(None);
    };
    let Some(address) = string_given(alloc, words, "address")? else {
        return Ok(None);
    };
    Ok(Some(Target { address, port }))
}
