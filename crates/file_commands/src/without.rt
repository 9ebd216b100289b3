//! The command `without`: a solution file without the solutions of a level.

ghost use Rattle.std.specs.Prelude.{◌≡◌, ◌≢◌, ◌≤◌, ℕ, false, OnOk, IfOk, IfErr, IfSome, IfNone, length, string_bytes};
ghost use Rattle.std.specs.Io.KnownBytes.{IsAtEnd};
ghost use Rattle.clap.specs.Matches.{found_of};
ghost use Rattle.clap.specs.Words.{app_of, first_of, rows_of, rule_of};
ghost use Rattle.clap.specs.declared.builder.command.Command.TheViews.{out-Command};
ghost use Rattle.tws_compare.specs.Without.{text_without};
ghost use Rattle.command_line.specs.Arguments.{Answers};
ghost use Rattle.file_commands.specs.Notes.{IsSayFault, unless};
ghost use Rattle.file_commands.specs.Without.{AsksForWithout, IsLevel, IsLevelNumber, WithoutRan, WithoutSaid, level_rule, no_solution, password_rule, removal_note, removing_app, without_app};
ghost use Rattle.command_line.specs.Faults.{IsReadOut};
ghost use Rattle.command_line.specs.Saying.{Says};
ghost use Rattle.show_commands.specs.Saying.{SaysOf};
ghost use Rattle.show_commands.specs.Written.{Writes, WriteFails};

use clap::builder::ValueParser;
use clap::{Arg, ArgMatches, Command};
use command_line::{
    Source, ToolFault, USAGE, new_command, say, source_argument, source_given, string_given,
    text_given,
};
use show_commands::{OneInputCommand, output_argument, read_input, run_one_input};
use std::alloc::{AllocError, Global};
use std::io::{Read, Write};
use system_files::FileSystem;
use tws_compare::{password_shown, without};
use tws_file::{Key, TwsFile, write_file};

/// What `without` is asked for.
#[derive(Drop)]
pub struct WithoutArguments {
    /// The number of the level whose solutions are left out.
    pub level: u16,
    /// Its password, as it was typed.
    pub password: String,
    /// The solution file.
    pub source: Source,
    /// The file that is written in place of standard output, if one was named.
    pub output: Option<String>,
}

fn level_argument<'a>(alloc: Global) -> Arg<'a>
    ensures rule { rule_of result ≡ level_rule }
    ensures local { result.global ≡ false }
{
    Arg::new(alloc, "level")
        .value_name("LEVEL")
        .value_parser(ValueParser::Unsigned(0, u16::MAX as u64))
        .required(true)
        .help("The number of the level")
}

fn password_argument<'a>(alloc: Global) -> Arg<'a>
    ensures rule { rule_of result ≡ password_rule }
    ensures local { result.global ≡ false }
{
    Arg::new(alloc, "password")
        .value_name("PASSWORD")
        .required(true)
        .help("The password of the level, as `tws show` prints it")
}

// What the help of the command begins and ends with.
const ABOUT: &str = "Write a solution file without the solutions of a level";

const HELP: &str =
    "Everything else stays as it is.\n\nExample: tws without 1 BDHP lynx.tws -o mended.tws";

// The command without its option for the output.
fn removing_command<'a>(alloc: Global) -> Result<Command<'a>, AllocError>
    ensures app { IfOk result (λ command. app_of command ≡ removing_app) }
    ensures local { IfOk result (λ command. (out-Command command).has_globals ≡ false) }
{
    new_command(alloc, "without", ABOUT, HELP)
        .arg(level_argument(alloc))?
        .arg(password_argument(alloc))?
        .arg(source_argument(alloc))
}

/// The command, as `clap` reads it.
///
/// # Errors
///
/// Out of memory.
pub(crate) fn command<'a>(alloc: Global) -> Result<Command<'a>, AllocError>
    ensures app { IfOk result (λ command. app_of command ≡ without_app) }
    ensures local { IfOk result (λ command. (out-Command command).has_globals ≡ false) }
{
    removing_command(alloc)?.arg(output_argument(alloc))
}

// Parses the number of a level, or 0, which a record can have though no level does.
fn level_of(text: &str) -> Option<u16>
    ensures some { IfSome result (IsLevelNumber text.now) }
    ensures none { IfNone result ((n : ℕ) → IsLevelNumber text.now n → ⊥) }
{
    match text.parse::<u64>() {
        Ok(number) if number <= u16::MAX as u64 => Some(number as u16),
        _ => None,
    }
}

// The number of the level that was given; `None` if that is not a number in range.
fn level_given(words: &ArgMatches) -> Option<u16>
    ensures { Answers (IsLevel (first_of level_rule.id (rows_of (found_of words.now)))) result }
{
    let text = text_given(words, "level")?;
    level_of(text)
}

/// What the arguments ask for; `None` if the number of the level is out of range.
///
/// # Errors
///
/// Out of memory.
pub(crate) fn asked(
    alloc: Global,
    words: &ArgMatches,
) -> Result<Option<WithoutArguments>, AllocError>
    ensures { IfOk result (Answers (AsksForWithout (rows_of (found_of words.now)))) }
{
    let Some(level) = level_given(words) else {
        return Ok(None);
    };
    let Some(password) = string_given(alloc, words, "password")? else {
        return Ok(None);
    };
    let source = source_given(alloc, words)?;
    let output = string_given(alloc, words, "output")?;
    Ok(Some(WithoutArguments {
        level,
        password,
        source,
        output,
    }))
}

fn record_count(file: &TwsFile) -> usize
    ensures { result ≡ length file.now.records }
{
    file.records.len()
}

// The line for a file that has no solution of a level.
fn no_solution(alloc: Global, key: Key) -> Result<String, AllocError>
    ensures { IfOk result (λ text. string_bytes text ≡ no_solution key) }
{
    format!(in alloc; "tws: no solution of level {key}\n")
}

// Says that a file has no solution of a level, unless one was found.
fn say_removal<E: Write>(
    alloc: Global,
    key: Key,
    is_found: bool,
    errors: &mut E,
) -> Result<(), ToolFault>
    ensures said { OnOk result (Says (unless is_found (no_solution key)) (errors.new ≡ errors.old) (E.contents errors.old) (E.contents errors.new)) }
    ensures fails { IfErr result IsSayFault }
{
    if is_found {
        return Ok(());
    }
    let line = no_solution(alloc, key)?;
    say(line.as_str(), errors)
}

/// Reads a solution file to its end, and writes it without the solutions of a level; if it has none, that is said on `errors`
/// first.
///
/// # Errors
///
/// `Read` if the reader fails or does not end within `INPUT_READS` reads, and `Unreadable` with index 0 and the fault
/// of the bytes: then nothing was written. `Write` if a writer fails: then a proper prefix of the file was written.
/// `Memory` if an allocation was refused: then nothing was written.
pub fn run_without<R: Read, W: Write, E: Write>(
    alloc: Global,
    key: Key,
    input: &mut R,
    out: &mut W,
    errors: &mut E,
) -> Result<(), ToolFault>
    ensures end { OnOk result (IsAtEnd (R.remaining input.new)) }
    ensures unreadable { IfErr result (IsReadOut (R.remaining input.new)) }
    ensures left { OnOk result (Writes (text_without key) (R.remaining input.old) (W.contents out.old) (W.contents out.new)) }
    ensures fails { IfErr result (WriteFails (text_without key) (R.remaining input.old) (W.contents out.old) (W.contents out.new)) }
    // Holds also for a writer without ghost contents.
    ensures unwritten { IfErr result (λ e. e ≢ ToolFault.Write → out.new ≡ out.old) }
    ensures said { OnOk result (SaysOf (removal_note key) (errors.new ≡ errors.old) (R.remaining input.old) (E.contents errors.old) (E.contents errors.new)) }
{
    let file = read_input(alloc, 0, input)?;
    let count = record_count(&file);
    let left = without(key, file);
    say_removal(alloc, key, record_count(&left) < count, errors)?;
    write_file(&left, out)?;
    Ok(())
}

// The command, once the password that it was given is known to be one.
#[derive(Clone, Copy)]
struct Removal {
    // The level whose solutions are left out.
    key: Key,
}

impl OneInputCommand for Removal {
    ghost text = { λ removal. text_without removal.key };

    ghost says = { λ removal. removal_note removal.key };

    fn run_over<R: Read, W: Write, E: Write>(
        &self,
        alloc: Global,
        input: &mut R,
        out: &mut W,
        errors: &mut E,
    ) -> Result<(), ToolFault> {
        run_without(alloc, self.key, input, out, errors)
    }
}

// Reports a text that is not a password, and returns the status.
fn bad_password<E: Write>(errors: &mut E) -> u8
    ensures { result ≡ 1 }
{
    let _ = writeln!(errors, "tws: bad password");
    USAGE
}

/// Runs `without` over this output, whatever its arguments say of one, and returns the exit status: 1 if what was typed is not a password, and otherwise that of
/// `run_one_input`.
pub(crate) fn run<S: FileSystem, R: Read, W: Write, E: Write>(
    system: &S,
    alloc: Global,
    arguments: &WithoutArguments,
    input: &mut R,
    out: &mut W,
    errors: &mut E,
) -> u8
    ensures ran { WithoutRan (S.bytes_of system.now) (input.new ≡ input.old) arguments.now result (R.remaining input.old) (R.remaining input.new) (W.contents out.old) (W.contents out.new) }
    // The clauses below hold also for readers and writers without ghost contents.
    ensures usage { result ≡ 1 → (input.new ≡ input.old) × (out.new ≡ out.old) }
    ensures few { result ≤ 3 }
    ensures unreadable { result ≡ 3 → out.new ≡ out.old }
    ensures said { result ≡ 0 → WithoutSaid (S.bytes_of system.now) (R.remaining input.old) (errors.new ≡ errors.old) arguments.now (E.contents errors.old) (E.contents errors.new) }
{
    let source = &arguments.source;
    match password_shown(arguments.password.as_str()) {
        Some(password) => {
            let number = arguments.level;
            let removal = Removal {
                key: Key { number, password },
            };
            run_one_input(&removal, system, alloc, source, input, out, errors)
        }
        None => bad_password(errors),
    }
}
