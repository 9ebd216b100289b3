//! The files for which the arguments of `best` stand.

ghost use Rattle.std.specs.Prelude.{◌≡◌, map, string_bytes, OnOk, IfOk, IfErr};
ghost use Rattle.file_commands.specs.BestFiles.{AddsFiles, AddsInputs, AddsNamed, AreInputs, IsNamed};

use command_line::{Source, ToolFault, report, report_file};
use std::alloc::{AllocError, Global};
use std::io::Write;
use system_files::{FileSystem, Unlisted};

/// The inputs of `best`, by where they came from.
#[derive(Drop)]
pub(crate) struct BestFiles {
    /// The files that were named and standard input, and after them the files that were found in folders.
    pub(crate) sources: Vec<Source>,
    /// How many of them were named.
    pub(crate) named: usize,
}

// The file of this name.
fn named(alloc: Global, name: &str) -> Result<Source, AllocError>
    ensures { IfOk result (IsNamed name.now) }
{
    Ok(Source::Named(String::from_str(alloc, name)?))
}

// Adds the files of these names.
fn add_named(alloc: Global, names: &[String], sources: &mut Vec<Source>) -> Result<(), Unlisted>
    ensures { OnOk result (AddsNamed (map string_bytes names.now) sources.old.items sources.new.items) }
{
    for name in names {
        sources.push(named(alloc, name.as_str())?)?;
    }
    Ok(())
}

// Adds what a name stands for: its file to those that were named, or what is below its folder to those that were found.
fn add_files<S: FileSystem>(
    system: &S,
    alloc: Global,
    name: &str,
    named_so_far: &mut Vec<Source>,
    found: &mut Vec<Source>,
) -> Result<(), Unlisted>
    ensures { OnOk result (AddsFiles (S.below_of system.now name.now) name.now named_so_far.old.items named_so_far.new.items found.old.items found.new.items) }
{
    match system.files_below(name) {
        Ok(Some(files)) => add_named(alloc, &files, found),
        Ok(None) => {
            named_so_far.push(named(alloc, name)?)?;
            Ok(())
        }
        Err(why) => Err(why),
    }
}

// Adds what an argument stands for.
fn add_inputs<S: FileSystem>(
    system: &S,
    alloc: Global,
    file: &Source,
    named_so_far: &mut Vec<Source>,
    found: &mut Vec<Source>,
) -> Result<(), Unlisted>
    ensures { OnOk result (AddsInputs (S.below_of system.now) file.now named_so_far.old.items named_so_far.new.items found.old.items found.new.items) }
{
    match file {
        Source::Standard => {
            named_so_far.push(Source::Standard)?;
            Ok(())
        }
        Source::Named(name) => add_files(system, alloc, name.as_str(), named_so_far, found),
    }
}

// What these arguments stand for.
fn find<S: FileSystem>(system: &S, alloc: Global, files: &[Source]) -> Result<BestFiles, Unlisted>
    ensures { IfOk result (λ best. AreInputs (S.below_of system.now) files.now best.sources.items best.named) }
{
    let mut sources = Vec::new(alloc);
    let mut found = Vec::new(alloc);
    for file in files {
        add_inputs(system, alloc, file, &mut sources, &mut found)?;
    }
    let named = sources.len();
    sources.append(&mut found)?;
    Ok(BestFiles { sources, named })
}

/// What these arguments stand for. If a folder cannot be listed, that is reported, and the status returned.
pub(crate) fn find_files<S: FileSystem, E: Write>(
    system: &S,
    alloc: Global,
    files: &[Source],
    errors: &mut E,
) -> Result<BestFiles, u8>
    ensures found { IfOk result (λ best. AreInputs (S.below_of system.now) files.now best.sources.items best.named) }
    ensures failed { IfErr result (λ status. status ≡ 2) }
    ensures silent { OnOk result (errors.new ≡ errors.old) }
{
    match find(system, alloc, files) {
        Ok(best) => Ok(best),
        Err(Unlisted::Memory) => Err(report(ToolFault::Memory, &[], errors)),
        Err(Unlisted::Folder { name, cause }) => {
            Err(report_file(ToolFault::Read, name.as_str(), &cause, errors))
        }
    }
}
