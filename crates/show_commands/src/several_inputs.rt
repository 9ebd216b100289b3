//! A command of several inputs: it reads solution files, and writes one text of all of them.

ghost use Rattle.std.specs.Prelude.{◌≡◌, ◌≢◌, ◌≤◌, ℕ, List, [], Option, Some, map, take, OnOk, IfErr};
ghost use Rattle.tws_file.specs.Text.{File};
ghost use Rattle.command_line.specs.Faults.{IsBeforeOutput};
ghost use Rattle.command_line.specs.Inputs.{knowns_of};
ghost use Rattle.show_commands.specs.Opening.{CanOpenAll};
ghost use Rattle.show_commands.specs.Saying.{SaysOfFiles};
ghost use Rattle.show_commands.specs.SeveralInputs.{AreLessKnown, FilesFail, FilesRan, FilesRanFrom};

use crate::not_opened::NotOpened;
use crate::opening::open_all;
use crate::reporting::finish_among;
use crate::standard::{has_standard, read_bytes};
use command_line::{FAILED, Source, ToolFault, report};
use std::alloc::Global;
use std::io::{Read, Write};
use system_files::FileSystem;

/// A command that reads several solution files and writes one text of all of them.
pub trait SeveralInputsCommand {
    /// The text of inputs of which this is known was written.
    ghost writes: { Self → List (Option (List ℕ)) → (old new : Option (List ℕ)) → Type 0 };

    /// A proper prefix of that text was written.
    ghost prefix: { Self → List (Option (List ℕ)) → (old new : Option (List ℕ)) → Type 0 };

    /// What it says of files on standard error when all is done.
    ghost says: { Self → List File → List ℕ } = { λ _ _. [] };

    /// Reads solution files to their ends, in order, says what there is to say of them, and writes the text of them.
    ///
    /// # Errors
    ///
    /// The first input that fails decides. `Read` if it fails or does not end within `INPUT_READS` reads, and
    /// `Unreadable` with its number, counted from 0, and the fault of its bytes: then nothing was written. `Write` if
    /// a writer fails: then a proper prefix of the text was written. `Memory` if an allocation was refused: then
    /// nothing or such a prefix was written.
    fn run_over<R: Read, W: Write, E: Write>(
        &self,
        alloc: Global,
        inputs: &mut [R],
        out: &mut W,
        errors: &mut E,
    ) -> Result<(), ToolFault>
        ensures written { OnOk result (writes self.now (map (λ input. R.remaining input) inputs.old) (W.contents out.old) (W.contents out.new)) }
        ensures fails { IfErr result (FilesFail (prefix self.now (map (λ input. R.remaining input) inputs.old) (W.contents out.old) (W.contents out.new)) (map (λ input. R.remaining input) inputs.old) (W.contents out.old) (W.contents out.new)) }
        // Holds also for a writer without ghost contents.
        ensures unwritten { IfErr result (λ e. IsBeforeOutput e → out.new ≡ out.old) }
        ensures said { OnOk result (SaysOfFiles (says self.now) (errors.new ≡ errors.old) (map (λ input. R.remaining input) inputs.old) (E.contents errors.old) (E.contents errors.new)) };

    /// What was written is written also of inputs of which less is known.
    ghost writes_less: { (command : Self) (more less : List (Option (List ℕ))) (old new : Option (List ℕ)) → AreLessKnown more less → writes command more old new → writes command less old new };

    /// The same of a proper prefix.
    ghost prefix_less: { (command : Self) (more less : List (Option (List ℕ))) (old new : Option (List ℕ)) → AreLessKnown more less → prefix command more old new → prefix command less old new };
}

// Runs a command over the inputs of these sources, where standard input has the bytes `standard`, and returns the
// status.
fn run_opened<C: SeveralInputsCommand, S: FileSystem, W: Write, E: Write>(
    command: &C,
    system: &S,
    alloc: Global,
    sources: &[Source],
    at_once: usize,
    standard: &[u8],
    out: &mut W,
    errors: &mut E,
) -> u8
    ensures ran { let knowns = knowns_of (S.bytes_of system.now) (Some standard.now) sources.now in FilesRan (C.writes command.now knowns (W.contents out.old) (W.contents out.new)) (C.prefix command.now knowns (W.contents out.old) (W.contents out.new)) knowns result (W.contents out.old) (W.contents out.new) }
    ensures unreadable { result ≡ 3 → out.new ≡ out.old }
    ensures opened { result ≢ 2 → CanOpenAll (S.opens_of system.now) (take at_once sources.now) }
    ensures said { result ≡ 0 → SaysOfFiles (C.says command.now) (errors.new ≡ errors.old) (knowns_of (S.bytes_of system.now) (Some standard.now) sources.now) (E.contents errors.old) (E.contents errors.new) }
{
    match open_all(system, alloc, sources, at_once, standard, errors) {
        Ok(mut inputs) => {
            let done = command.run_over(alloc, &mut inputs, out, errors);
            finish_among(done, sources, &inputs, errors)
        }
        Err(NotOpened::Memory) => report(ToolFault::Memory, &[], errors),
        Err(NotOpened::Reported) => FAILED,
    }
}

/// Runs a command over the inputs of these sources, and returns the exit status: 0 if all was done, 2 if reading,
/// writing or memory failed, 3 for an input that is not a solution file. A fault goes to `errors`, and before it, or at
/// status 0 alone, what the command says.
///
/// Files are opened by their names in `system`: those of the first `at_once` sources before one is read, and each other one when
/// it is read, so that the others may be more than a program may have open. Standard input, if it is among the inputs, is read
/// whole before any other, and is the same each time that it is named.
pub fn run_several_inputs<C: SeveralInputsCommand, S: FileSystem, R: Read, W: Write, E: Write>(
    command: &C,
    system: &S,
    alloc: Global,
    sources: &[Source],
    at_once: usize,
    input: &mut R,
    out: &mut W,
    errors: &mut E,
) -> u8
    ensures ran { FilesRanFrom sources.now (S.bytes_of system.now) (input.new ≡ input.old) (C.writes command.now) (C.prefix command.now) result (R.remaining input.old) (R.remaining input.new) (W.contents out.old) (W.contents out.new) }
    // The clauses below hold also for readers and writers without ghost contents.
    ensures usage { result ≢ 1 }
    ensures few { result ≤ 3 }
    ensures unreadable { result ≡ 3 → out.new ≡ out.old }
    // Whatever the status but 2, each of the first files was opened.
    ensures opened { result ≢ 2 → CanOpenAll (S.opens_of system.now) (take at_once sources.now) }
    ensures said { result ≡ 0 → SaysOfFiles (C.says command.now) (errors.new ≡ errors.old) (knowns_of (S.bytes_of system.now) (R.remaining input.old) sources.now) (E.contents errors.old) (E.contents errors.new) }
{
    if !has_standard(sources) {
        return run_opened(command, system, alloc, sources, at_once, &[], out, errors);
    }
    match read_bytes(alloc, input) {
        Ok(bytes) => run_opened(
            command, system, alloc, sources, at_once, &bytes, out, errors,
        ),
        Err(fault) => report(fault, &[], errors),
    }
}
