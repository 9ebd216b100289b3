//! The command `best`: the best solutions of several files.

ghost use Rattle.std.specs.Prelude.{◌≡◌, ◌≢◌, ◌≤◌, ℕ, List, Option, false, map, OnOk, IfOk, IfErr};
ghost use Rattle.std.specs.List.{AllByRecursion};
ghost use Rattle.std.specs.Io.KnownBytes.{IsAtEnd};
ghost use Rattle.clap.specs.Matches.{found_of};
ghost use Rattle.clap.specs.Words.{app_of, rows_of, rule_of};
ghost use Rattle.clap.specs.declared.builder.command.Command.TheViews.{out-Command};
ghost use Rattle.command_line.specs.Arguments.{Answers, files_rule};
ghost use Rattle.file_commands.specs.Best.{AsksForBest, Collects, BestWrites, BestPrefix, BestFails, BestRan, BestSaid, best_app};
ghost use Rattle.file_commands.specs.Notes.{files_note};
ghost use Rattle.file_commands.specs.Steps.{AreNoted};
ghost use Rattle.show_commands.specs.Saying.{SaysOfFiles};
ghost use Rattle.show_commands.specs.SeveralInputs.{AreReadOut, CollectFails};
ghost use Rattle.file_commands.specs.Knowing.{best_prefix_less, best_writes_less};

use crate::best_files::{BestFiles, find_files};
use crate::notes::Notes;
use clap::{Arg, ArgMatches, Command};
use command_line::{
    Source, ToolFault, new_command, ruleset_argument, ruleset_given, say, sources_given,
    string_given,
};
use show_commands::{
    SeveralInputsCommand, files_argument, output_argument, read_input, run_several_inputs,
};
use std::alloc::{AllocError, Global};
use std::io::{Read, Write};
use std::mem;
use system_files::FileSystem;
use tws_best::Collection;
use tws_file::Ruleset;

/// What `best` is asked for.
#[derive(Drop)]
pub struct BestArguments {
    /// The ruleset of the collection.
    pub ruleset: Ruleset,
    /// The files, which standard input may be among.
    pub files: Vec<Source>,
    /// The file that is written in place of standard output, if one was named.
    pub output: Option<String>,
}

// What the help of the command begins and ends with.
const ABOUT: &str = "Write the best solution of each level of several files";

const HELP: &str =
    "The best has the fewest ticks. A folder stands for the files below it that end in .tws.\n\nExample: tws best lynx mine.tws yours.tws -o best.tws";

// `FILE..`: the inputs, which may be folders.
fn inputs_argument<'a>(alloc: Global) -> Arg<'a>
    ensures rule { rule_of result ≡ files_rule }
    ensures local { result.global ≡ false }
{
    files_argument(alloc).help("The solution files, or folders of them; standard input for -")
}

/// The command, as `clap` reads it, with these names of the rulesets.
///
/// # Errors
///
/// Out of memory.
pub(crate) fn command<'a>(alloc: Global, names: &'a [&'a str]) -> Result<Command<'a>, AllocError>
    ensures app { IfOk result (λ command. app_of command ≡ best_app names.entry) }
    ensures local { IfOk result (λ command. (out-Command command).has_globals ≡ false) }
{
    new_command(alloc, "best", ABOUT, HELP)
        .arg(ruleset_argument(alloc, names))?
        .arg(inputs_argument(alloc))?
        .arg(output_argument(alloc))
}

/// What the arguments ask for; `None` if the ruleset is unknown.
///
/// # Errors
///
/// Out of memory.
pub(crate) fn asked(alloc: Global, words: &ArgMatches) -> Result<Option<BestArguments>, AllocError>
    ensures { IfOk result (Answers (AsksForBest (rows_of (found_of words.now)))) }
{
    let Some(ruleset) = ruleset_given(words) else {
        return Ok(None);
    };
    let files = sources_given(alloc, words)?;
    let output = string_given(alloc, words, "output")?;
    Ok(Some(BestArguments {
        ruleset,
        files,
        output,
    }))
}

// The collection over all inputs, each of which is read to its end. What is said of the files is noted.
fn collect<R: Read>(
    alloc: Global,
    ruleset: Ruleset,
    sources: &[Source],
    named: usize,
    files: &mut [R],
    notes: &mut Notes,
) -> Result<Collection, ToolFault>
    requires rules { notes.old.rules_count ≡ 0 }
    requires sets { notes.old.sets_count ≡ 0 }
    ensures end { OnOk result (AllByRecursion (λ file. IsAtEnd (R.remaining file)) files.new) }
    ensures collected { IfOk result (Collects «ruleset» (map (λ file. R.remaining file) files.old)) }
    ensures noted { OnOk result (AreNoted «ruleset» sources.now named notes.old notes.new (map (λ file. R.remaining file) files.old)) }
    ensures fails { IfErr result (CollectFails (map (λ file. R.remaining file) files.old)) }
    ensures unreadable { IfErr result (AreReadOut (λ file. R.remaining file) files.new) }
{
    let mut collection = Collection::new(alloc, ruleset);
    for index in 0..files.len() {
        let file = read_input(alloc, index, &mut files[index])?;
        notes.add(alloc, ruleset, sources, named, index, &file)?;
        collection.merge(&file)?;
    }
    Ok(collection)
}

// The collection over all inputs, once there was said what is to be said of them.
fn collect_saying<R: Read, E: Write>(
    alloc: Global,
    ruleset: Ruleset,
    sources: &[Source],
    named: usize,
    files: &mut [R],
    errors: &mut E,
) -> Result<Collection, ToolFault>
    ensures end { OnOk result (AllByRecursion (λ file. IsAtEnd (R.remaining file)) files.new) }
    ensures collected { IfOk result (Collects «ruleset» (map (λ file. R.remaining file) files.old)) }
    ensures said { OnOk result (SaysOfFiles (files_note «ruleset» sources.now named) (errors.new ≡ errors.old) (map (λ file. R.remaining file) files.old) (E.contents errors.old) (E.contents errors.new)) }
    ensures fails { IfErr result (λ e. (unwritten : Option (List ℕ)) → BestFails «ruleset» (map (λ file. R.remaining file) files.old) unwritten unwritten e) }
    ensures unreadable { IfErr result (AreReadOut (λ file. R.remaining file) files.new) }
{
    let mut notes = Notes::new(alloc);
    let collection = collect(alloc, ruleset, sources, named, files, &mut notes)?;
    notes.finish(alloc, ruleset)?;
    say(notes.text.as_str(), errors)?;
    Ok(collection)
}

/// Reads solution files to their ends, in order, and writes the collection of the best solutions in those of this
/// ruleset. First `errors` is told, by the names of `sources`, which file is of the other ruleset, and which names another
/// level set than the first of this ruleset that names one; of the files after the first `named`, which were found in folders,
/// only how many. The collection's memory is not freed, but left to the end of the process.
///
/// # Errors
///
/// The first input that fails decides. `Read` if it fails or does not end within `INPUT_READS` reads, and `Unreadable`
/// with its number, counted from 0, and the fault of its bytes: then nothing was written. `Write` if a writer fails:
/// then a proper prefix of the collection's text was written. `Memory` if an allocation was refused: then nothing was
/// written.
pub fn run_best<R: Read, W: Write, E: Write>(
    alloc: Global,
    ruleset: Ruleset,
    sources: &[Source],
    named: usize,
    files: &mut [R],
    out: &mut W,
    errors: &mut E,
) -> Result<(), ToolFault>
    ensures end { OnOk result (AllByRecursion (λ file. IsAtEnd (R.remaining file)) files.new) }
    ensures collected { OnOk result (BestWrites «ruleset» (map (λ file. R.remaining file) files.old) (W.contents out.old) (W.contents out.new)) }
    ensures fails { IfErr result (BestFails «ruleset» (map (λ file. R.remaining file) files.old) (W.contents out.old) (W.contents out.new)) }
    ensures unreadable { IfErr result (AreReadOut (λ file. R.remaining file) files.new) }
    // Holds also for a writer without ghost contents.
    ensures unwritten { IfErr result (λ e. e ≢ ToolFault.Write → out.new ≡ out.old) }
    ensures said { OnOk result (SaysOfFiles (files_note «ruleset» sources.now named) (errors.new ≡ errors.old) (map (λ file. R.remaining file) files.old) (E.contents errors.old) (E.contents errors.new)) }
{
    let collection = collect_saying(alloc, ruleset, sources, named, files, errors)?;
    let written = collection.write_text(out);
    // To free two blocks for each of a million bodies takes a fifth of the time, and the process ends next.
    mem::forget(collection);
    written?;
    Ok(())
}

// The command, once its files were found.
#[derive(Clone, Copy)]
struct Plan<'a> {
    ruleset: Ruleset,
    files: &'a BestFiles,
}

impl SeveralInputsCommand for Plan<'_> {
    ghost writes = { λ plan. BestWrites plan.«ruleset» };

    ghost prefix = { λ plan. BestPrefix plan.«ruleset» };

    ghost says = { λ plan. files_note plan.«ruleset» plan.files.now.sources.items plan.files.now.named };

    fn run_over<R: Read, W: Write, E: Write>(
        &self,
        alloc: Global,
        inputs: &mut [R],
        out: &mut W,
        errors: &mut E,
    ) -> Result<(), ToolFault> {
        let BestFiles { sources, named } = self.files;
        run_best(alloc, self.ruleset, sources, *named, inputs, out, errors)
    }

    ghost writes_less = { λ plan. best_writes_less plan.«ruleset» };

    ghost prefix_less = { λ plan. best_prefix_less plan.«ruleset» };
}

/// Runs `best` over its files and this output, whatever its arguments say of one, and returns the exit status: 0 if all was done, 2 if reading, writing or memory
/// failed, 3 for an input that is not a solution file. A fault goes to `errors`, and before it, or at status 0 alone, what `run_best` says.
///
/// A folder stands for the solution files below it. Files are opened by their names in `system`: those that were named before
/// one is read, and after them each that was found in a folder when it is read. Standard input, if it is among the inputs, is
/// read whole before any other, and is the same each time that it is named.
pub(crate) fn run<S: FileSystem, R: Read, W: Write, E: Write>(
    system: &S,
    alloc: Global,
    arguments: &BestArguments,
    input: &mut R,
    out: &mut W,
    errors: &mut E,
) -> u8
    ensures ran { BestRan (S.below_of system.now) (S.bytes_of system.now) (input.new ≡ input.old) arguments.now result (R.remaining input.old) (R.remaining input.new) (W.contents out.old) (W.contents out.new) }
    // The clauses below hold also for readers and writers without ghost contents.
    ensures usage { result ≢ 1 }
    ensures few { result ≤ 3 }
    ensures unreadable { result ≡ 3 → out.new ≡ out.old }
    ensures said { result ≡ 0 → BestSaid (S.below_of system.now) (S.bytes_of system.now) (R.remaining input.old) (errors.new ≡ errors.old) arguments.now (E.contents errors.old) (E.contents errors.new) }
{
    match find_files(system, alloc, &arguments.files, errors) {
        Ok(files) => {
            let plan = Plan {
                ruleset: arguments.ruleset,
                files: &files,
            };
            let (sources, named) = (&files.sources, files.named);
            run_several_inputs(&plan, system, alloc, sources, named, input, out, errors)
        }
        Err(status) => status,
    }
}
