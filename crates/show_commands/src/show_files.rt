//! The text of several files, as `show` writes it.

ghost use Rattle.std.specs.Prelude.{◌≡◌, ◌++◌, map, OnOk, OnErr, IfOk, IfErr, codes, string_bytes};
ghost use Rattle.std.specs.List.{zip};
ghost use Rattle.std.specs.Io.KnownBytes.{Appends};
ghost use Rattle.byte_output.specs.Output.{AppendsPrefix};
ghost use Rattle.tws_file.specs.Words.{line};
ghost use Rattle.command_line.specs.Faults.{IsBeforeOutput};
ghost use Rattle.show_commands.specs.Show.{ShowPrefix, ShowWrites, files_text, later_text, name_of, shown_text};
ghost use Rattle.show_commands.specs.SeveralInputs.{FilesFail};
ghost use Rattle.show_commands.specs.Knowing.{show_prefix_less, show_writes_less};

use crate::inputs::read_inputs;
use crate::several_inputs::SeveralInputsCommand;
use crate::show::ShowArguments;
use byte_output::{OutFault, put};
use command_line::{Source, ToolFault};
use std::alloc::{AllocError, Global};
use std::io::{Read, Write};
use tws_file::TwsFile;
use tws_tables::{show, write_csv};

// The name of an input, as it is given.
fn name_of(source: &Source) -> &str
    ensures { result.now ≡ name_of source.now }
{
    match source {
        Source::Standard => "-",
        Source::Named(name) => name.as_str(),
    }
}

// Writes the text of a file.
#[tactic(auto, unfolding(crate::specs::Show::shown_text))]
fn show_file<W: Write>(
    alloc: Global,
    arguments: &ShowArguments,
    file: &TwsFile,
    out: &mut W,
) -> Result<(), OutFault>
    ensures ok { OnOk result (Appends (W.contents out.old) (W.contents out.new) (shown_text arguments.now file.now)) }
    ensures err { OnErr result (AppendsPrefix (W.contents out.old) (W.contents out.new) (shown_text arguments.now file.now)) }
{
    if arguments.csv {
        write_csv(alloc, file, out)
    } else {
        show(alloc, file, arguments.moves, out)
    }
}

// A line with the name of an input.
fn name_line(alloc: Global, source: &Source) -> Result<String, AllocError>
    ensures { IfOk result (λ text. string_bytes text ≡ line (codes "file " ++ name_of source.now)) }
{
    let name = name_of(source);
    format!(in alloc; "file {name}\n")
}

// Writes the name of a file that is not the first, on a line of its own, and its text.
fn show_later<W: Write>(
    alloc: Global,
    arguments: &ShowArguments,
    source: &Source,
    file: &TwsFile,
    out: &mut W,
) -> Result<(), OutFault>
    ensures ok { OnOk result (Appends (W.contents out.old) (W.contents out.new) (later_text arguments.now (source.now, file.now))) }
    ensures err { OnErr result (AppendsPrefix (W.contents out.old) (W.contents out.new) (later_text arguments.now (source.now, file.now))) }
{
    let line = name_line(alloc, source)?;
    put(out, line.as_bytes())?;
    show_file(alloc, arguments, file, out)
}

// Writes the files from these inputs.
fn show_all<W: Write>(
    alloc: Global,
    arguments: &ShowArguments,
    sources: &[Source],
    files: &[TwsFile],
    out: &mut W,
) -> Result<(), OutFault>
    ensures ok { OnOk result (Appends (W.contents out.old) (W.contents out.new) (files_text arguments.now (zip sources.now files.now))) }
    ensures err { OnErr result (AppendsPrefix (W.contents out.old) (W.contents out.new) (files_text arguments.now (zip sources.now files.now))) }
{
    let count = sources.len().min(files.len());
    if count == 0 {
        return Ok(());
    }
    show_file(alloc, arguments, &files[0], out)?;
    for index in 1..count {
        show_later(alloc, arguments, &sources[index], &files[index], out)?;
    }
    Ok(())
}

// Reads several files, and writes them once all are read.
fn run_files<R: Read, W: Write>(
    alloc: Global,
    arguments: &ShowArguments,
    inputs: &mut [R],
    out: &mut W,
) -> Result<(), ToolFault>
    ensures written { OnOk result (ShowWrites arguments.now (map (λ input. R.remaining input) inputs.old) (W.contents out.old) (W.contents out.new)) }
    ensures fails { IfErr result (FilesFail (ShowPrefix arguments.now (map (λ input. R.remaining input) inputs.old) (W.contents out.old) (W.contents out.new)) (map (λ input. R.remaining input) inputs.old) (W.contents out.old) (W.contents out.new)) }
    ensures unwritten { IfErr result (λ e. IsBeforeOutput e → out.new ≡ out.old) }
{
    let files = read_inputs(alloc, inputs)?;
    show_all(alloc, arguments, &arguments.files, &files, out)?;
    Ok(())
}

impl SeveralInputsCommand for ShowArguments {
    ghost writes = { ShowWrites };

    ghost prefix = { ShowPrefix };

    fn run_over<R: Read, W: Write, E: Write>(
        &self,
        alloc: Global,
        inputs: &mut [R],
        out: &mut W,
        _errors: &mut E,
    ) -> Result<(), ToolFault> {
        run_files(alloc, self, inputs, out)
    }

    ghost writes_less = { show_writes_less };

    ghost prefix_less = { show_prefix_less };
}
