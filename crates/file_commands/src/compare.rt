//! The command `compare`: two solution files compared, or what is better in the first.

ghost use Rattle.std.specs.Prelude.{◌≡◌, ◌≢◌, ◌≤◌, true, false, Ok, OnOk, IfOk, IfErr, string_bytes};
ghost use Rattle.std.specs.Io.KnownBytes.{IsAtEnd};
ghost use Rattle.clap.specs.Matches.{found_of};
ghost use Rattle.clap.specs.Words.{app_of, rows_of, rule_of};
ghost use Rattle.clap.specs.declared.builder.command.Command.TheViews.{out-Command};
ghost use Rattle.command_line.specs.Arguments.{Answers};
ghost use Rattle.file_commands.specs.Compare.{AsksToCompare, CanOpenBoth, CompareFails, CompareRan, CompareSaid, Compares, ComparesFiles, FilesFail, ReportsUnopened, SaysOfTwo, better_rule, compare_app, compare_note, compare_status, compared_app, mine_rule, theirs_rule};
ghost use Rattle.command_line.specs.Faults.{status_of};
ghost use Rattle.command_line.specs.Saying.{Says};
ghost use Rattle.file_commands.specs.Notes.{IsSayFault};

use crate::notes::sets_note;
use byte_output::put;
use clap::{Arg, ArgAction, ArgMatches, Command};
use command_line::{DONE, ToolFault, USAGE, new_command, open_named, report, say, string_given};
use show_commands::{output_argument, read_input};
use std::alloc::{AllocError, Global};
use std::io::{Read, Write};
use std::slice;
use system_files::FileSystem;
use tws_compare::{CompareFault, better, compare, comparison_text};
use tws_file::TwsFile;

/// What `compare` is asked for.
#[derive(Drop)]
pub struct CompareArguments {
    /// The name of my file.
    pub mine: String,
    /// The name of theirs.
    pub theirs: String,
    /// Whether to write what is better in mine, instead of the comparison.
    pub better: bool,
    /// The file that is written in place of standard output, if one was named.
    pub output: Option<String>,
}

fn mine_argument<'a>(alloc: Global) -> Arg<'a>
    ensures rule { rule_of result ≡ mine_rule }
    ensures local { result.global ≡ false }
{
    Arg::new(alloc, "mine")
        .value_name("MINE")
        .required(true)
        .help("Your solution file")
}

fn theirs_argument<'a>(alloc: Global) -> Arg<'a>
    ensures rule { rule_of result ≡ theirs_rule }
    ensures local { result.global ≡ false }
{
    Arg::new(alloc, "theirs")
        .value_name("THEIRS")
        .required(true)
        .help("The solution file to compare it with")
}

fn better_argument<'a>(alloc: Global) -> Arg<'a>
    ensures rule { rule_of result ≡ better_rule }
    ensures local { result.global ≡ false }
{
    Arg::new(alloc, "better")
        .long("better")
        .action(ArgAction::SetTrue)
        .help("Write your solutions that are better or new, as a solution file")
}

// What the help of the command begins and ends with.
const ABOUT: &str = "Compare the best solutions of two solution files";

const HELP: &str =
    "Writes a line for each level number and password, and one with their counts.\n\nExample: tws compare mine.tws lynx.tws";

// The command without its option for the output.
fn compared_command<'a>(alloc: Global) -> Result<Command<'a>, AllocError>
    ensures app { IfOk result (λ command. app_of command ≡ compared_app) }
    ensures local { IfOk result (λ command. (out-Command command).has_globals ≡ false) }
{
    new_command(alloc, "compare", ABOUT, HELP)
        .arg(mine_argument(alloc))?
        .arg(theirs_argument(alloc))?
        .arg(better_argument(alloc))
}

/// The command, as `clap` reads it.
///
/// # Errors
///
/// Out of memory.
pub(crate) fn command<'a>(alloc: Global) -> Result<Command<'a>, AllocError>
    ensures app { IfOk result (λ command. app_of command ≡ compare_app) }
    ensures local { IfOk result (λ command. (out-Command command).has_globals ≡ false) }
{
    compared_command(alloc)?.arg(output_argument(alloc))
}

/// What the arguments ask for; `None` if a file has no name.
///
/// # Errors
///
/// Out of memory.
pub(crate) fn asked(
    alloc: Global,
    words: &ArgMatches,
) -> Result<Option<CompareArguments>, AllocError>
    ensures { IfOk result (Answers (AsksToCompare (rows_of (found_of words.now)))) }
{
    let Some(mine) = string_given(alloc, words, "mine")? else {
        return Ok(None);
    };
    let Some(theirs) = string_given(alloc, words, "theirs")? else {
        return Ok(None);
    };
    let better = words.get_flag("better");
    let output = string_given(alloc, words, "output")?;
    Ok(Some(CompareArguments {
        mine,
        theirs,
        better,
        output,
    }))
}

// Writes the comparison of two files. Returns whether they are of one ruleset.
fn write_comparison<W: Write>(
    alloc: Global,
    mine: &TwsFile,
    theirs: &TwsFile,
    out: &mut W,
) -> Result<bool, ToolFault>
    ensures compared { IfOk result (ComparesFiles false mine.now theirs.now (W.contents out.old) (W.contents out.new)) }
    ensures fails { IfErr result (FilesFail false mine.now theirs.now (W.contents out.old) (W.contents out.new)) }
    ensures unwritten { IfErr result (λ e. e ≢ ToolFault.Write → out.new ≡ out.old) }
    ensures other { result ≡ Ok false → out.new ≡ out.old }
{
    match compare(alloc, mine, theirs) {
        Ok(rows) => {
            let text = comparison_text(alloc, &rows)?;
            put(out, text.as_bytes())?;
            Ok(true)
        }
        Err(CompareFault::Rulesets) => Ok(false),
        Err(CompareFault::Memory) => Err(ToolFault::Memory),
    }
}

// Writes the collection of what is better in mine. Returns whether the files are of one ruleset.
fn write_better<W: Write>(
    alloc: Global,
    mine: TwsFile,
    theirs: &TwsFile,
    out: &mut W,
) -> Result<bool, ToolFault>
    ensures compared { IfOk result (ComparesFiles true mine theirs.now (W.contents out.old) (W.contents out.new)) }
    ensures fails { IfErr result (FilesFail true mine theirs.now (W.contents out.old) (W.contents out.new)) }
    ensures unwritten { IfErr result (λ e. e ≢ ToolFault.Write → out.new ≡ out.old) }
    ensures other { result ≡ Ok false → out.new ≡ out.old }
{
    match better(alloc, mine, theirs) {
        Ok(collection) => {
            collection.write_text(out)?;
            Ok(true)
        }
        Err(CompareFault::Rulesets) => Ok(false),
        Err(CompareFault::Memory) => Err(ToolFault::Memory),
    }
}

// Writes what is asked for of two files. Returns whether they are of one ruleset.
fn write_compared<W: Write>(
    alloc: Global,
    is_better: bool,
    mine: TwsFile,
    theirs: &TwsFile,
    out: &mut W,
) -> Result<bool, ToolFault>
    ensures compared { IfOk result (ComparesFiles is_better mine theirs.now (W.contents out.old) (W.contents out.new)) }
    ensures fails { IfErr result (FilesFail is_better mine theirs.now (W.contents out.old) (W.contents out.new)) }
    ensures unwritten { IfErr result (λ e. e ≢ ToolFault.Write → out.new ≡ out.old) }
    ensures other { result ≡ Ok false → out.new ≡ out.old }
{
    if is_better {
        write_better(alloc, mine, theirs, out)
    } else {
        write_comparison(alloc, &mine, theirs, out)
    }
}

// Says whether two files of one ruleset name different level sets.
fn say_sets<E: Write>(
    alloc: Global,
    arguments: &CompareArguments,
    mine: &TwsFile,
    theirs: &TwsFile,
    errors: &mut E,
) -> Result<(), ToolFault>
    ensures said { OnOk result (Says (compare_note arguments.now mine.now theirs.now) (errors.new ≡ errors.old) (E.contents errors.old) (E.contents errors.new)) }
    ensures fails { IfErr result IsSayFault }
{
    let (mine_name, theirs_name) = (arguments.mine.as_str(), arguments.theirs.as_str());
    let note = sets_note(alloc, mine_name, mine, theirs_name, theirs)?;
    say(note.as_str(), errors)
}

/// Reads two solution files to their ends, mine first, and writes their comparison, or the collection of what is better
/// in mine. Returns whether they are of one ruleset; if not, nothing was written. If they are, but name different level sets,
/// that is said on `errors` first, by the names of the arguments.
///
/// # Errors
///
/// `Read` if a reader fails or does not end within `INPUT_READS` reads, `Unreadable` with the number of the first
/// input that is not a solution file, 0 for mine and 1 for theirs, and its fault, and `Memory` if an allocation was
/// refused: then nothing was written. `Write` if a writer fails: then a proper prefix of the text was written.
pub fn run_compare<R: Read, W: Write, E: Write>(
    alloc: Global,
    arguments: &CompareArguments,
    mine: &mut R,
    theirs: &mut R,
    out: &mut W,
    errors: &mut E,
) -> Result<bool, ToolFault>
    ensures end { OnOk result (IsAtEnd (R.remaining mine.new) × IsAtEnd (R.remaining theirs.new)) }
    ensures compared { IfOk result (Compares arguments.now.better (R.remaining mine.old) (R.remaining theirs.old) (W.contents out.old) (W.contents out.new)) }
    ensures fails { IfErr result (CompareFails arguments.now.better (R.remaining mine.old) (R.remaining theirs.old) (W.contents out.old) (W.contents out.new)) }
    // Hold also for a writer without ghost contents.
    ensures unwritten { IfErr result (λ e. e ≢ ToolFault.Write → out.new ≡ out.old) }
    ensures other { result ≡ Ok false → out.new ≡ out.old }
    ensures said { IfOk result (λ same. same ≡ true → SaysOfTwo arguments.now (errors.new ≡ errors.old) (R.remaining mine.old) (R.remaining theirs.old) (E.contents errors.old) (E.contents errors.new)) }
{
    let mine = read_input(alloc, 0, mine)?;
    let theirs = read_input(alloc, 1, theirs)?;
    if mine.ruleset != theirs.ruleset {
        return Ok(false);
    }
    say_sets(alloc, arguments, &mine, &theirs, errors)?;
    write_compared(alloc, arguments.better, mine, &theirs, out)
}

// Reports why the files were not compared, and returns the status. The input at fault is one of the two.
fn report_input<E: Write>(fault: ToolFault, arguments: &CompareArguments, errors: &mut E) -> u8
    ensures { result ≡ status_of fault }
{
    match fault {
        ToolFault::Unreadable { index: 1, fault } => {
            let first = ToolFault::Unreadable { index: 0, fault };
            report(first, slice::from_ref(&arguments.theirs), errors)
        }
        fault => report(fault, slice::from_ref(&arguments.mine), errors),
    }
}

// Reports that the files are of different rulesets, and returns the status.
fn other_rulesets<E: Write>(errors: &mut E) -> u8
    ensures { result ≡ 1 }
{
    let _ = writeln!(errors, "tws: different rulesets");
    USAGE
}

// Reports why the files were not compared, if they were not, and returns the status.
fn end<E: Write>(done: Result<bool, ToolFault>, arguments: &CompareArguments, errors: &mut E) -> u8
    ensures status { result ≡ compare_status done }
    ensures silent { result ≡ 0 → errors.new ≡ errors.old }
{
    match done {
        Ok(true) => DONE,
        Ok(false) => other_rulesets(errors),
        Err(fault) => report_input(fault, arguments, errors),
    }
}

// Opens both files, mine first. If one cannot be opened, that is reported, and the status returned.
fn open_two<S: FileSystem, E: Write>(
    system: &S,
    arguments: &CompareArguments,
    errors: &mut E,
) -> Result<(S::File, S::File), u8>
    ensures mine { IfOk result (λ files. S.File.remaining files.0 ≡ S.bytes_of system.now (string_bytes arguments.now.mine)) }
    ensures theirs { IfOk result (λ files. S.File.remaining files.1 ≡ S.bytes_of system.now (string_bytes arguments.now.theirs)) }
    ensures can { OnOk result (CanOpenBoth (S.opens_of system.now) arguments.now) }
    ensures unopened { IfErr result (λ status. (status ≡ 2) × ReportsUnopened (S.opens_of system.now) arguments.now (E.contents errors.old) (E.contents errors.new)) }
    ensures silent { OnOk result (errors.new ≡ errors.old) }
{
    let mine = match open_named(system, arguments.mine.as_str(), errors) {
        Ok(file) => file,
        Err(status) => return Err(status),
    };
    match open_named(system, arguments.theirs.as_str(), errors) {
        Ok(theirs) => Ok((mine, theirs)),
        Err(status) => Err(status),
    }
}

/// Runs `compare` over the files of its names and this output, whatever its arguments say of one, and returns the exit status: 0 if all was done, 1 if the files are of
/// different rulesets, 2 if reading, writing or memory failed, 3 for a file that is not a solution file. A fault goes
/// to `errors`, and before it, or at status 0 alone, what `run_compare` says. Both files are opened in `system` before one is read.
pub(crate) fn run<S: FileSystem, W: Write, E: Write>(
    system: &S,
    alloc: Global,
    arguments: &CompareArguments,
    out: &mut W,
    errors: &mut E,
) -> u8
    ensures ran { CompareRan (S.bytes_of system.now) arguments.now result (W.contents out.old) (W.contents out.new) }
    // The clauses below hold also for a writer without ghost contents.
    ensures usage { result ≡ 1 → out.new ≡ out.old }
    ensures few { result ≤ 3 }
    ensures unreadable { result ≡ 3 → out.new ≡ out.old }
    ensures opened { result ≢ 2 → CanOpenBoth (S.opens_of system.now) arguments.now }
    ensures said { result ≡ 0 → CompareSaid (S.bytes_of system.now) (errors.new ≡ errors.old) arguments.now (E.contents errors.old) (E.contents errors.new) }
{
    match open_two(system, arguments, errors) {
        Ok((mut mine, mut theirs)) => {
            let done = run_compare(alloc, arguments, &mut mine, &mut theirs, out, errors);
            end(done, arguments, errors)
        }
        Err(status) => status,
    }
}
