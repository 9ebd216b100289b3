//! The command `pack`.

ghost use Rattle.std.specs.Prelude.{◌≡◌, ◌≢◌, ◌≤◌, false, OnOk, IfOk, IfErr};
ghost use Rattle.std.specs.Io.KnownBytes.{IsAtEnd};
ghost use Rattle.clap.specs.Matches.{found_of};
ghost use Rattle.clap.specs.Words.{app_of, rows_of};
ghost use Rattle.clap.specs.declared.builder.command.Command.TheViews.{out-Command};
ghost use Rattle.tws_file.specs.Packing.{packed_text};
ghost use Rattle.show_commands.specs.Pack.{AsksToPack, PackRan, pack_app};
ghost use Rattle.command_line.specs.Faults.{IsReadOut};
ghost use Rattle.show_commands.specs.Written.{Writes, WriteFails};

use crate::input::read_input;
use crate::one_input::{OneInputCommand, run_one_input};
use crate::output::output_argument;
use clap::{ArgMatches, Command};
use command_line::{Source, ToolFault, new_command, source_argument, source_given, string_given};
use std::alloc::{AllocError, Global};
use std::io::{Read, Write};
use system_files::FileSystem;
use tws_file::{pack, write_file};

/// What `pack` is asked for.
#[derive(Drop)]
pub struct PackArguments {
    /// The solution file.
    pub source: Source,
    /// The file that is written in place of standard output, if one was named.
    pub output: Option<String>,
}

// What the help of the command begins and ends with.
const ABOUT: &str = "Write a solution file with its moves in the fewest bytes";

const HELP: &str =
    "Nothing but the bytes of the moves changes.\n\nExample: tws pack mine.tws -o packed.tws";

/// The command, as `clap` reads it.
///
/// # Errors
///
/// Out of memory.
pub(crate) fn command<'a>(alloc: Global) -> Result<Command<'a>, AllocError>
    ensures app { IfOk result (λ command. app_of command ≡ pack_app) }
    ensures local { IfOk result (λ command. (out-Command command).has_globals ≡ false) }
{
    new_command(alloc, "pack", ABOUT, HELP)
        .arg(source_argument(alloc))?
        .arg(output_argument(alloc))
}

/// What the arguments ask for.
///
/// # Errors
///
/// Out of memory.
pub fn asked(alloc: Global, words: &ArgMatches) -> Result<PackArguments, AllocError>
    ensures { IfOk result (AsksToPack (rows_of (found_of words.now))) }
{
    let source = source_given(alloc, words)?;
    let output = string_given(alloc, words, "output")?;
    Ok(PackArguments { source, output })
}

/// Reads a solution file to its end, and writes it with each solution's moves in the fewest bytes.
///
/// # Errors
///
/// `Read` if the reader fails or does not end within `INPUT_READS` reads, and `Unreadable` with index 0 and the fault
/// of the bytes: then nothing was written. `Write` if the writer fails: then a proper prefix of the packed file was
/// written. `Memory` if an allocation was refused: then nothing was written.
pub fn run_pack<R: Read, W: Write>(
    alloc: Global,
    input: &mut R,
    out: &mut W,
) -> Result<(), ToolFault>
    ensures end { OnOk result (IsAtEnd (R.remaining input.new)) }
    ensures unreadable { IfErr result (IsReadOut (R.remaining input.new)) }
    ensures packed { OnOk result (Writes packed_text (R.remaining input.old) (W.contents out.old) (W.contents out.new)) }
    ensures fails { IfErr result (WriteFails packed_text (R.remaining input.old) (W.contents out.old) (W.contents out.new)) }
    // Holds also for a writer without ghost contents.
    ensures unwritten { IfErr result (λ e. e ≢ ToolFault.Write → out.new ≡ out.old) }
{
    let file = read_input(alloc, 0, input)?;
    let packed = pack(alloc, &file)?;
    write_file(&packed, out)?;
    Ok(())
}

impl OneInputCommand for PackArguments {
    ghost text = { λ _. packed_text };

    fn run_over<R: Read, W: Write, E: Write>(
        &self,
        alloc: Global,
        input: &mut R,
        out: &mut W,
        _errors: &mut E,
    ) -> Result<(), ToolFault> {
        run_pack(alloc, input, out)
    }
}

/// Runs `pack` over this output, whatever its arguments say of one, and returns the exit status, which is that of `run_one_input`.
pub fn run<S: FileSystem, R: Read, W: Write, E: Write>(
    system: &S,
    alloc: Global,
    arguments: &PackArguments,
    input: &mut R,
    out: &mut W,
    errors: &mut E,
) -> u8
    ensures ran { PackRan (S.bytes_of system.now) (input.new ≡ input.old) arguments.now result (R.remaining input.old) (R.remaining input.new) (W.contents out.old) (W.contents out.new) }
    // The clauses below hold also for readers and writers without ghost contents.
    ensures usage { result ≢ 1 }
    ensures few { result ≤ 3 }
    ensures unreadable { result ≡ 3 → out.new ≡ out.old }
    ensures silent { result ≡ 0 → errors.new ≡ errors.old }
{
    let source = &arguments.source;
    run_one_input(arguments, system, alloc, source, input, out, errors)
}
