//! The arguments that several commands share, and what was given for an argument.

ghost use Rattle.std.specs.Prelude.{◌≡◌, ◌≢◌, ℕ, false, Some, None, IfOk, IfSome, IfNone, map, option_map, string_bytes, codes};
ghost use Rattle.clap.specs.Matches.{found_of};
ghost use Rattle.clap.specs.declared.builder.command.Command.TheViews.{out-Command};
ghost use Rattle.clap.specs.Words.{app_of, new_app, rows_of, rule_of, first_of};
ghost use Rattle.tws_file.specs.Words.{ruleset_name};
ghost use Rattle.command_line.specs.Arguments.{AreRulesetNames, AreSources, Answers, HasRuleset, HasSource, HasSources, IsNumberUpTo, IsSource, ruleset_rule, source_rule};

use crate::source::Source;
use clap::builder::ValueParser;
use clap::{Arg, ArgMatches, Command};
use std::alloc::{AllocError, Global};
use tws_file::Ruleset;

/// The names of the rulesets.
pub fn ruleset_names() -> &'static [&'static str]
    ensures { AreRulesetNames result }
{
    &Ruleset::NAMES
}

/// A command without arguments: what its help begins and ends with.
pub fn new_command<'a>(alloc: Global, name: &'a str, about: &'a str, more: &'a str) -> Command<'a>
    ensures app { app_of result ≡ new_app name.now }
    ensures local { (out-Command result).has_globals ≡ false }
{
    Command::new(alloc, name).about(about).after_help(more)
}

// ---- the arguments

/// `RULESET`, with these names of the rulesets.
pub fn ruleset_argument<'a>(alloc: Global, names: &'a [&'a str]) -> Arg<'a>
    ensures rule { rule_of result ≡ ruleset_rule names.entry }
    ensures local { result.global ≡ false }
{
    Arg::new(alloc, "ruleset")
        .value_name("RULESET")
        .value_parser(ValueParser::Names(names))
        .required(true)
        .help("The rules that the solutions were played by")
}

/// `[FILE]`: the one input of a command.
pub fn source_argument<'a>(alloc: Global) -> Arg<'a>
    ensures rule { rule_of result ≡ source_rule }
    ensures local { result.global ≡ false }
{
    Arg::new(alloc, "file").value_name("FILE").help(
        "The solution file; standard input if none is given, or if it is -",
    )
}

// ---- what was given

/// The text that was given for this argument, if any.
pub fn text_given<'a>(words: &ArgMatches<'a>, name: &str) -> Option<&'a str>
    ensures some { IfSome result (λ text. first_of name.now (rows_of (found_of words.now)) ≡ Some text.now) }
    ensures none { IfNone result (first_of name.now (rows_of (found_of words.now)) ≡ None) }
{
    words.get_str(name)
}

/// A copy of the text that was given for this argument, if any.
///
/// # Errors
///
/// Out of memory.
pub fn string_given(
    alloc: Global,
    words: &ArgMatches,
    name: &str,
) -> Result<Option<String>, AllocError>
    ensures { IfOk result (λ text. option_map string_bytes text ≡ first_of name.now (rows_of (found_of words.now))) }
{
    match text_given(words, name) {
        Some(text) => Ok(Some(String::from_str(alloc, text)?)),
        None => Ok(None),
    }
}

// Where the input of this name is to be read from.
fn source_of(alloc: Global, name: &str) -> Result<Source, AllocError>
    ensures { IfOk result (IsSource (Some name.now)) }
{
    match name {
        "-" => Ok(Source::Standard),
        _ => Ok(Source::Named(String::from_str(alloc, name)?)),
    }
}

/// Where the one input is to be read from.
///
/// # Errors
///
/// Out of memory.
pub fn source_given(alloc: Global, words: &ArgMatches) -> Result<Source, AllocError>
    ensures { IfOk result (HasSource (rows_of (found_of words.now))) }
{
    match text_given(words, "file") {
        None => Ok(Source::Standard),
        Some(name) => source_of(alloc, name),
    }
}

// Where the inputs of these names are to be read from.
fn sources_of(alloc: Global, names: &[&str]) -> Result<Vec<Source>, AllocError>
    ensures { IfOk result (λ sources. AreSources (map (λ name. name.now) names.now) sources.items) }
{
    let mut sources = Vec::new(alloc);
    for name in names {
        sources.push(source_of(alloc, name)?)?;
    }
    Ok(sources)
}

/// Where several inputs are to be read from, in order.
///
/// # Errors
///
/// Out of memory.
pub fn sources_given(alloc: Global, words: &ArgMatches) -> Result<Vec<Source>, AllocError>
    ensures { IfOk result (λ sources. HasSources (rows_of (found_of words.now)) sources.items) }
{
    sources_of(alloc, words.get_raw("files").unwrap_or(&[]))
}

/// Parses a number from 1 to `most`.
pub fn number_up_to(text: &str, most: u64) -> Option<u64>
    ensures some { IfSome result (IsNumberUpTo most text.now) }
    ensures none { IfNone result ((n : ℕ) → IsNumberUpTo most text.now n → ⊥) }
{
    match text.parse::<u64>() {
        Ok(number) if 1 <= number && number <= most => Some(number),
        _ => None,
    }
}

/// The ruleset that was given; `None` if there is none of its name.
pub fn ruleset_given(words: &ArgMatches) -> Option<Ruleset>
    ensures { Answers (HasRuleset (rows_of (found_of words.now))) result }
{
    match text_given(words, "ruleset") {
        Some(name) => Ruleset::from_name(name),
        None => None,
    }
}
