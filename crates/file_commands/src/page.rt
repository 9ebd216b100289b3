//! The command `page`: the solutions of several files as a page of HTML.

ghost use Rattle.std.specs.Prelude.{◌≡◌, ◌≢◌, ◌≤◌, false, map, option_copied, option_map, string_bytes, OnOk, IfOk, IfErr};
ghost use Rattle.std.specs.List.{AllByRecursion};
ghost use Rattle.std.specs.Io.KnownBytes.{IsAtEnd};
ghost use Rattle.clap.specs.Matches.{found_of};
ghost use Rattle.clap.specs.Words.{app_of, rows_of, rule_of};
ghost use Rattle.clap.specs.declared.builder.command.Command.TheViews.{out-Command};
ghost use Rattle.show_commands.specs.SeveralInputs.{AreReadOut};
ghost use Rattle.file_commands.specs.Page.{AsksForPage, PageFails, PagePrefix, PageRan, PageWrites, levels_rule, page_app, paged_app, title_rule};
ghost use Rattle.command_line.specs.Faults.{IsBeforeOutput};
ghost use Rattle.file_commands.specs.Knowing.{page_prefix_less, page_writes_less};

use crate::level_file::levels_given;
use clap::{Arg, ArgMatches, Command};
use command_line::{Source, ToolFault, new_command, sources_given, string_given};
use show_commands::{
    SeveralInputsCommand, files_argument, output_argument, read_inputs, run_several_inputs,
};
use std::alloc::{AllocError, Global};
use std::io::{Read, Write};
use system_files::FileSystem;
use tws_pages::{Level, write_page_by};

/// What `page` is asked for.
#[derive(Drop)]
pub struct PageArguments {
    /// The files, which standard input may be among.
    pub files: Vec<Source>,
    /// The title of the page, if one was given.
    pub title: Option<String>,
    /// The file with the list of the levels, if one was named.
    pub levels: Option<String>,
    /// The file that is written in place of standard output, if one was named.
    pub output: Option<String>,
}

fn title_argument<'a>(alloc: Global) -> Arg<'a>
    ensures rule { rule_of result ≡ title_rule }
    ensures local { result.global ≡ false }
{
    Arg::new(alloc, "title")
        .long("title")
        .value_name("TEXT")
        .help("The page's title, such as the level set and the date")
}

fn levels_argument<'a>(alloc: Global) -> Arg<'a>
    ensures rule { rule_of result ≡ levels_rule }
    ensures local { result.global ≡ false }
{
    Arg::new(alloc, "levels")
        .long("levels")
        .value_name("FILE")
        .help("A list of the levels: lines of number,password,name,limit")
}

// What the help of the command begins and ends with.
const ABOUT: &str = "Write the solutions of several files as a page of HTML";

const HELP: &str =
    "The page needs no other file.\n\nExample: tws page --title 'My records' lynx.tws ms.tws -o best.html";

// The command without its option for the output.
fn paged_command<'a>(alloc: Global) -> Result<Command<'a>, AllocError>
    ensures app { IfOk result (λ command. app_of command ≡ paged_app) }
    ensures local { IfOk result (λ command. (out-Command command).has_globals ≡ false) }
{
    new_command(alloc, "page", ABOUT, HELP)
        .arg(files_argument(alloc))?
        .arg(title_argument(alloc))?
        .arg(levels_argument(alloc))
}

/// The command, as `clap` reads it.
///
/// # Errors
///
/// Out of memory.
pub(crate) fn command<'a>(alloc: Global) -> Result<Command<'a>, AllocError>
    ensures app { IfOk result (λ command. app_of command ≡ page_app) }
    ensures local { IfOk result (λ command. (out-Command command).has_globals ≡ false) }
{
    paged_command(alloc)?.arg(output_argument(alloc))
}

/// What the arguments ask for.
///
/// # Errors
///
/// Out of memory.
pub(crate) fn asked(alloc: Global, words: &ArgMatches) -> Result<PageArguments, AllocError>
    ensures { IfOk result (AsksForPage (rows_of (found_of words.now))) }
{
    let files = sources_given(alloc, words)?;
    let title = string_given(alloc, words, "title")?;
    let levels = string_given(alloc, words, "levels")?;
    let output = string_given(alloc, words, "output")?;
    Ok(PageArguments {
        files,
        title,
        levels,
        output,
    })
}

// Borrows a title.
fn lent(title: &Option<String>) -> Option<&str>
    ensures { option_copied result ≡ option_map string_bytes title.now }
{
    match title {
        Some(title) => Some(title.as_str()),
        None => None,
    }
}

// Borrows levels.
fn lent_levels(levels: &Option<Vec<Level>>) -> Option<&[Level]>
    ensures { option_copied result ≡ option_map (λ levels. levels.items) levels.now }
{
    match levels {
        Some(levels) => Some(levels.as_slice()),
        None => None,
    }
}

/// Reads solution files to their ends, in order, and writes the page of them, with this title and by these levels if
/// there are any.
///
/// # Errors
///
/// The first input that fails decides. `Read` if it fails or does not end within `INPUT_READS` reads, and
/// `Unreadable` with its number, counted from 0, and the fault of its bytes: then nothing was written. `Write` if the
/// writer fails: then a proper prefix of the page was written. `Memory` if an allocation was refused: then nothing or
/// such a prefix was written.
pub fn run_page<R: Read, W: Write>(
    alloc: Global,
    title: &Option<String>,
    levels: &Option<Vec<Level>>,
    inputs: &mut [R],
    out: &mut W,
) -> Result<(), ToolFault>
    ensures end { OnOk result (AllByRecursion (λ input. IsAtEnd (R.remaining input)) inputs.new) }
    ensures written { OnOk result (PageWrites (option_map string_bytes title.now) (option_map (λ levels. levels.items) levels.now) (map (λ input. R.remaining input) inputs.old) (W.contents out.old) (W.contents out.new)) }
    ensures fails { IfErr result (PageFails (option_map string_bytes title.now) (option_map (λ levels. levels.items) levels.now) (map (λ input. R.remaining input) inputs.old) (W.contents out.old) (W.contents out.new)) }
    ensures unreadable { IfErr result (AreReadOut (λ input. R.remaining input) inputs.new) }
    // Holds also for a writer without ghost contents.
    ensures unwritten { IfErr result (λ e. IsBeforeOutput e → out.new ≡ out.old) }
{
    let files = read_inputs(alloc, inputs)?;
    write_page_by(alloc, lent(title), lent_levels(levels), &files, out)?;
    Ok(())
}

// The command, once its levels were read.
#[derive(Clone, Copy)]
struct Plan<'a> {
    title: &'a Option<String>,
    levels: &'a Option<Vec<Level>>,
}

impl SeveralInputsCommand for Plan<'_> {
    ghost writes = { λ plan. PageWrites (option_map string_bytes plan.title.now) (option_map (λ levels. levels.items) plan.levels.now) };

    ghost prefix = { λ plan. PagePrefix (option_map string_bytes plan.title.now) (option_map (λ levels. levels.items) plan.levels.now) };

    fn run_over<R: Read, W: Write, E: Write>(
        &self,
        alloc: Global,
        inputs: &mut [R],
        out: &mut W,
        _errors: &mut E,
    ) -> Result<(), ToolFault> {
        run_page(alloc, self.title, self.levels, inputs, out)
    }

    ghost writes_less = { λ plan. page_writes_less (option_map string_bytes plan.title.now) (option_map (λ levels. levels.items) plan.levels.now) };

    ghost prefix_less = { λ plan. page_prefix_less (option_map string_bytes plan.title.now) (option_map (λ levels. levels.items) plan.levels.now) };
}

/// Runs `page` over its files and this output, whatever its arguments say of one, and returns the exit status, which is that of `best::run`; the inputs are read as there,
/// after the list of levels. The status is 3 also for a list without a level.
pub(crate) fn run<S: FileSystem, R: Read, W: Write, E: Write>(
    system: &S,
    alloc: Global,
    arguments: &PageArguments,
    input: &mut R,
    out: &mut W,
    errors: &mut E,
) -> u8
    ensures ran { PageRan (S.bytes_of system.now) (input.new ≡ input.old) arguments.now result (R.remaining input.old) (R.remaining input.new) (W.contents out.old) (W.contents out.new) }
    // The clauses below hold also for readers and writers without ghost contents.
    ensures usage { result ≢ 1 }
    ensures few { result ≤ 3 }
    ensures unreadable { result ≡ 3 → out.new ≡ out.old }
    ensures silent { result ≡ 0 → errors.new ≡ errors.old }
{
    let sources = &arguments.files;
    match levels_given(system, alloc, &arguments.levels, errors) {
        Ok(levels) => {
            let plan = Plan {
                title: &arguments.title,
                levels: &levels,
            };
            let count = sources.len();
            run_several_inputs(&plan, system, alloc, sources, count, input, out, errors)
        }
        Err(status) => status,
    }
}
