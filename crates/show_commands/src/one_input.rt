//! A command of one input: it reads a solution file, and writes a text of it.

ghost use Rattle.std.specs.Prelude.{◌≡◌, ◌≢◌, ◌≤◌, ℕ, List, [], OnOk, IfErr};
ghost use Rattle.std.specs.Io.KnownBytes.{IsAtEnd};
ghost use Rattle.tws_file.specs.Text.{File};
ghost use Rattle.command_line.specs.Faults.{IsBeforeOutput, IsReadOut};
ghost use Rattle.command_line.specs.Inputs.{known_of};
ghost use Rattle.show_commands.specs.Saying.{SaysOf};
ghost use Rattle.show_commands.specs.Written.{RanFrom, Writes, WriteFails};

use command_line::{Source, ToolFault, finish, open_named};
use std::alloc::Global;
use std::io::{Read, Write};
use std::slice;
use system_files::FileSystem;

/// A command that reads one solution file and writes a text of it.
pub trait OneInputCommand {
    /// The text of a file that it writes.
    ghost text: { Self → File → List ℕ };

    /// What it says of a file on standard error when all is done.
    ghost says: { Self → File → List ℕ } = { λ _ _. [] };

    /// Reads a solution file to its end, says what there is to say of it, and writes the text of it.
    ///
    /// # Errors
    ///
    /// `Read` if the reader fails or does not end within `INPUT_READS` reads, and `Unreadable` with index 0 and the
    /// fault of the bytes: then nothing was written. `Write` if a writer fails: then a proper prefix of the text
    /// was written. `Memory` if an allocation was refused: then nothing or such a prefix was written.
    fn run_over<R: Read, W: Write, E: Write>(
        &self,
        alloc: Global,
        input: &mut R,
        out: &mut W,
        errors: &mut E,
    ) -> Result<(), ToolFault>
        ensures end { OnOk result (IsAtEnd (R.remaining input.new)) }
        ensures unreadable { IfErr result (IsReadOut (R.remaining input.new)) }
        ensures written { OnOk result (Writes (text self.now) (R.remaining input.old) (W.contents out.old) (W.contents out.new)) }
        ensures fails { IfErr result (WriteFails (text self.now) (R.remaining input.old) (W.contents out.old) (W.contents out.new)) }
        // Holds also for a writer without ghost contents.
        ensures unwritten { IfErr result (λ e. IsBeforeOutput e → out.new ≡ out.old) }
        ensures said { OnOk result (SaysOf (says self.now) (errors.new ≡ errors.old) (R.remaining input.old) (E.contents errors.old) (E.contents errors.new)) };
}

/// Runs a command on the input of this source, and returns the exit status: 0 if all was done, 2 if reading, writing
/// or memory failed, 3 for an input that is not a solution file. A fault goes to `errors`, and before it, or at status 0
/// alone, what the command says. A file is opened by its name in `system`.
pub fn run_one_input<C: OneInputCommand, S: FileSystem, R: Read, W: Write, E: Write>(
    command: &C,
    system: &S,
    alloc: Global,
    source: &Source,
    input: &mut R,
    out: &mut W,
    errors: &mut E,
) -> u8
    ensures ran { RanFrom source.now (S.bytes_of system.now) (input.new ≡ input.old) (C.text command.now) result (R.remaining input.old) (R.remaining input.new) (W.contents out.old) (W.contents out.new) }
    // The clauses below hold also for readers and writers without ghost contents.
    ensures usage { result ≢ 1 }
    ensures few { result ≤ 3 }
    ensures unreadable { result ≡ 3 → out.new ≡ out.old }
    ensures said { result ≡ 0 → SaysOf (C.says command.now) (errors.new ≡ errors.old) (known_of (S.bytes_of system.now) (R.remaining input.old) source.now) (E.contents errors.old) (E.contents errors.new) }
{
    match source {
        Source::Standard => {
            let done = command.run_over(alloc, input, out, errors);
            finish(done, &[], errors)
        }
        Source::Named(name) => match open_named(system, name.as_str(), errors) {
            Ok(mut file) => {
                let done = command.run_over(alloc, &mut file, out, errors);
                finish(done, slice::from_ref(name), errors)
            }
            Err(status) => status,
        },
    }
}
