//! Arguments that are numbers, the port among them, and what was given for an argument.

ghost use Rattle.std.specs.Prelude.{◌≡◌, ℕ, false, IfSome, IfNone};
ghost use Rattle.clap.specs.Matches.{found_of};
ghost use Rattle.clap.specs.Words.{rows_of, rule_of, first_of, one_of};
ghost use Rattle.command_line.specs.Arguments.{IsFlag};
ghost use Rattle.archive_arguments.specs.Arguments.{HasNumber, IsNumberOr, number_rule, number_rule_to, port_option};

use crate::limits::{MAX_PORT, PORT};
use clap::builder::ValueParser;
use clap::{Arg, ArgMatches};
use command_line::{number_up_to, text_given};
use std::alloc::Global;

/// An option with a number from 1 to `most`.
pub fn number_argument<'a>(
    alloc: Global,
    name: &'a str,
    value: &'a str,
    most: u64,
    help: &'a str,
) -> Arg<'a>
    ensures rule { rule_of result ≡ number_rule_to most name.now }
    ensures local { result.global ≡ false }
{
    Arg::new(alloc, name)
        .long(name)
        .value_name(value)
        .value_parser(ValueParser::Unsigned(1, most))
        .help(help)
}

/// `--port N`.
pub fn port_argument<'a>(alloc: Global) -> Arg<'a>
    ensures rule { rule_of result ≡ number_rule port_option }
    ensures local { result.global ≡ false }
{
    number_argument(
        alloc,
        "port",
        "N",
        MAX_PORT as u64,
        "The server's port, 6969 if none is given",
    )
}

/// Whether this flag was given.
pub fn flag_given(words: &ArgMatches, name: &str) -> bool
    ensures { IsFlag (one_of name.now (rows_of (found_of words.now))) result }
{
    words.get_flag(name)
}

/// The number that was given for this argument, from 1 to `most`, or the default if none was given. `None` if what was
/// given is not such a number.
pub fn number_given(words: &ArgMatches, name: &str, default: u64, most: u64) -> Option<u64>
    ensures some { IfSome result (IsNumberOr default most (first_of name.now (rows_of (found_of words.now)))) }
    ensures none { IfNone result ((n : ℕ) → IsNumberOr default most (first_of name.now (rows_of (found_of words.now))) n → ⊥) }
{
    match text_given(words, name) {
        Some(text) => number_up_to(text, most),
        None => Some(default),
    }
}

/// The port that was given, or the default; `None` if it is out of range.
pub fn port_given(words: &ArgMatches) -> Option<u16>
    ensures some { IfSome result (HasNumber port_option (rows_of (found_of words.now))) }
    ensures none { IfNone result ((n : ℕ) → HasNumber port_option (rows_of (found_of words.now)) n → ⊥) }
{
    let port = number_given(words, "port", PORT as u64, MAX_PORT as u64)?;
    Some(port as u16)
}
