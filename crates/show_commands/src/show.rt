//! The command `show`.

ghost use Rattle.std.specs.Prelude.{◌≡◌, ◌≢◌, ◌≤◌, false, [], OnOk, IfOk, IfErr, unwrap_or};
ghost use Rattle.std.specs.Io.KnownBytes.{IsAtEnd};
ghost use Rattle.clap.specs.Matches.{found_of};
ghost use Rattle.clap.specs.Walk.{all_of};
ghost use Rattle.clap.specs.Words.{app_of, rows_of, rule_of};
ghost use Rattle.clap.specs.declared.builder.command.Command.TheViews.{out-Command};
ghost use Rattle.tws_tables.specs.Listing.{listing_of};
ghost use Rattle.tws_tables.specs.Csv.{csv_of};
ghost use Rattle.show_commands.specs.Show.{AreShown, AsksToShow, ShowRan, csv_rule, listing_app, moves_rule, show_app, shown_rule, shown_text};
ghost use Rattle.command_line.specs.Faults.{IsBeforeOutput, IsReadOut};
ghost use Rattle.show_commands.specs.Written.{Writes, WriteFails};

use crate::arguments::files_argument;
use crate::input::read_input;
use crate::one_input::{OneInputCommand, run_one_input};
use crate::output::output_argument;
use crate::several_inputs::run_several_inputs;
use clap::{Arg, ArgAction, ArgMatches, Command};
use command_line::{Source, ToolFault, new_command, sources_given, string_given};
use std::alloc::{AllocError, Global};
use std::io::{Read, Write};
use system_files::FileSystem;
use tws_tables::{show, write_csv};

/// What `show` is asked for.
#[derive(Drop)]
pub struct ShowArguments {
    /// The solution files, which standard input may be among.
    pub files: Vec<Source>,
    /// Whether each move gets a line.
    pub moves: bool,
    /// Whether to write comma-separated values, in which there are no lines for moves.
    pub csv: bool,
    /// The file that is written in place of standard output, if one was named.
    pub output: Option<String>,
}

// `[FILE..]`: the inputs, which may be left out.
fn shown_argument<'a>(alloc: Global) -> Arg<'a>
    ensures rule { rule_of result ≡ shown_rule }
    ensures local { result.global ≡ false }
{
    files_argument(alloc).required(false).help(
        "The solution files; standard input if none is given, and for -",
    )
}

fn moves_argument<'a>(alloc: Global) -> Arg<'a>
    ensures rule { rule_of result ≡ moves_rule }
    ensures local { result.global ≡ false }
{
    Arg::new(alloc, "moves")
        .long("moves")
        .action(ArgAction::SetTrue)
        .help("With a line for each move")
}

fn csv_argument<'a>(alloc: Global) -> Arg<'a>
    ensures rule { rule_of result ≡ csv_rule }
    ensures local { result.global ≡ false }
{
    Arg::new(alloc, "csv")
        .long("csv")
        .action(ArgAction::SetTrue)
        .help("The solutions as comma-separated values, with the number of moves of each")
}

// What the help of the command begins and ends with.
const ABOUT: &str = "List solution files";

const HELP: &str =
    "Writes a line for the header, one for each record, and one for their number; of several files, each after the first below its name.\n\nExample: tws show --moves mine.tws";

// The command without its option for the output.
fn listing_command<'a>(alloc: Global) -> Result<Command<'a>, AllocError>
    ensures app { IfOk result (λ command. app_of command ≡ listing_app) }
    ensures local { IfOk result (λ command. (out-Command command).has_globals ≡ false) }
{
    new_command(alloc, "show", ABOUT, HELP)
        .arg(shown_argument(alloc))?
        .arg(moves_argument(alloc))?
        .arg(csv_argument(alloc))
}

/// The command, as `clap` reads it.
///
/// # Errors
///
/// Out of memory.
pub(crate) fn command<'a>(alloc: Global) -> Result<Command<'a>, AllocError>
    ensures app { IfOk result (λ command. app_of command ≡ show_app) }
    ensures local { IfOk result (λ command. (out-Command command).has_globals ≡ false) }
{
    listing_command(alloc)?.arg(output_argument(alloc))
}

// The inputs that were named, in order; standard input if none was.
fn files_given(alloc: Global, words: &ArgMatches) -> Result<Vec<Source>, AllocError>
    ensures { IfOk result (λ files. AreShown (unwrap_or (all_of shown_rule.id (rows_of (found_of words.now))) []) files.items) }
{
    let mut files = sources_given(alloc, words)?;
    if files.len() == 0 {
        files.push(Source::Standard)?;
    }
    Ok(files)
}

/// What the arguments ask for.
///
/// # Errors
///
/// Out of memory.
pub fn asked(alloc: Global, words: &ArgMatches) -> Result<ShowArguments, AllocError>
    ensures { IfOk result (AsksToShow (rows_of (found_of words.now))) }
{
    let files = files_given(alloc, words)?;
    let moves = words.get_flag("moves");
    let csv = words.get_flag("csv");
    let output = string_given(alloc, words, "output")?;
    Ok(ShowArguments {
        files,
        moves,
        csv,
        output,
    })
}

/// Reads a solution file to its end, and writes its listing, with a line for each move if `moves` is set.
///
/// # Errors
///
/// `Read` if the reader fails or does not end within `INPUT_READS` reads, and `Unreadable` with index 0 and the fault
/// of the bytes: then nothing was written. `Write` if the writer fails: then a proper prefix of the listing was
/// written. `Memory` if an allocation was refused: then nothing or a prefix of the listing was written.
pub fn run_show<R: Read, W: Write>(
    alloc: Global,
    input: &mut R,
    out: &mut W,
    moves: bool,
) -> Result<(), ToolFault>
    ensures end { OnOk result (IsAtEnd (R.remaining input.new)) }
    ensures unreadable { IfErr result (IsReadOut (R.remaining input.new)) }
    ensures listed { OnOk result (Writes (listing_of moves) (R.remaining input.old) (W.contents out.old) (W.contents out.new)) }
    ensures fails { IfErr result (WriteFails (listing_of moves) (R.remaining input.old) (W.contents out.old) (W.contents out.new)) }
    // Holds also for a writer without ghost contents.
    ensures unwritten { IfErr result (λ e. IsBeforeOutput e → out.new ≡ out.old) }
{
    let file = read_input(alloc, 0, input)?;
    show(alloc, &file, moves, out)?;
    Ok(())
}

/// Reads a solution file to its end, and writes its solutions as comma-separated values.
///
/// # Errors
///
/// Those of `run_show`, with the comma-separated values for the listing.
pub fn run_csv<R: Read, W: Write>(
    alloc: Global,
    input: &mut R,
    out: &mut W,
) -> Result<(), ToolFault>
    ensures end { OnOk result (IsAtEnd (R.remaining input.new)) }
    ensures unreadable { IfErr result (IsReadOut (R.remaining input.new)) }
    ensures written { OnOk result (Writes csv_of (R.remaining input.old) (W.contents out.old) (W.contents out.new)) }
    ensures fails { IfErr result (WriteFails csv_of (R.remaining input.old) (W.contents out.old) (W.contents out.new)) }
    // Holds also for a writer without ghost contents.
    ensures unwritten { IfErr result (λ e. IsBeforeOutput e → out.new ≡ out.old) }
{
    let file = read_input(alloc, 0, input)?;
    write_csv(alloc, &file, out)?;
    Ok(())
}

impl OneInputCommand for ShowArguments {
    ghost text = { shown_text };

    #[tactic(auto, unfolding(crate::specs::Show::shown_text))]
    fn run_over<R: Read, W: Write, E: Write>(
        &self,
        alloc: Global,
        input: &mut R,
        out: &mut W,
        _errors: &mut E,
    ) -> Result<(), ToolFault> {
        if self.csv {
            run_csv(alloc, input, out)
        } else {
            run_show(alloc, input, out, self.moves)
        }
    }
}

/// Runs `show` over this output, whatever its arguments say of one, and returns the exit status, which is that of `run_one_input`
/// for one file, and otherwise that of `run_several_inputs`.
pub fn run<S: FileSystem, R: Read, W: Write, E: Write>(
    system: &S,
    alloc: Global,
    arguments: &ShowArguments,
    input: &mut R,
    out: &mut W,
    errors: &mut E,
) -> u8
    ensures ran { ShowRan (S.bytes_of system.now) (input.new ≡ input.old) arguments.now result (R.remaining input.old) (R.remaining input.new) (W.contents out.old) (W.contents out.new) }
    // The clauses below hold also for readers and writers without ghost contents.
    ensures usage { result ≢ 1 }
    ensures few { result ≤ 3 }
    ensures unreadable { result ≡ 3 → out.new ≡ out.old }
    ensures silent { result ≡ 0 → errors.new ≡ errors.old }
{
    let sources = &arguments.files;
    if sources.len() == 1 {
        return run_one_input(arguments, system, alloc, &sources[0], input, out, errors);
    }
    let count = sources.len();
    run_several_inputs(arguments, system, alloc, sources, count, input, out, errors)
}
