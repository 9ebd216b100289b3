//! Several inputs, of which the first are opened before one is read.

ghost use Rattle.std.specs.Prelude.{◌≡◌, ◌++◌, Some, map, take, OnOk, OnErr, IfOk, IfErr};
ghost use Rattle.either.specs.Either.{either};
ghost use Rattle.command_line.specs.Inputs.{known_of, knowns_of};
ghost use Rattle.show_commands.specs.Opening.{AreNotOpened, CanOpenAll, CanOpenSource, CannotOpenSource, ReportsUnopened, left_of};
ghost use Rattle.show_commands.specs.declared.not_opened.NotOpened.TheVariants as NotOpened;

use crate::input_file::InputFile;
use crate::not_opened::NotOpened;
use command_line::{Source, open_named};
use either::Either;
use std::alloc::Global;
use std::io::Write;
use system_files::FileSystem;

// Opens the input of a source, which for standard input has these bytes. If it cannot be opened, that is reported, and the
// status returned.
fn open_source<'a, S: FileSystem, E: Write>(
    system: &'a S,
    source: &'a Source,
    standard: &'a [u8],
    errors: &mut E,
) -> Result<Either<InputFile<'a, S>, &'a [u8]>, u8>
    ensures opened { IfOk result (λ input. either (λ file. left_of S.File.remaining (S.bytes_of file.system.now file.name.now) file.stage) (λ bytes. Some bytes.now) input ≡ known_of (S.bytes_of system.now) (Some standard.now) source.now) }
    ensures can { OnOk result (CanOpenSource (S.opens_of system.now) source.now) }
    ensures cannot { IfErr result (λ status. (status ≡ 2) × CannotOpenSource (S.opens_of system.now) source.now) }
    ensures silent { OnOk result (errors.new ≡ errors.old) }
    ensures printed { OnErr result (ReportsUnopened source.now (E.contents errors.old) (E.contents errors.new)) }
{
    match source {
        Source::Standard => Ok(Either::Right(standard)),
        Source::Named(name) => match open_named(system, name.as_str(), errors) {
            Ok(file) => Ok(Either::Left(InputFile::open(system, name.as_str(), file))),
            Err(status) => Err(status),
        },
    }
}

// The input of a source, of which a file is opened when it is read.
fn closed_source<'a, S: FileSystem>(
    system: &'a S,
    source: &'a Source,
    standard: &'a [u8],
) -> Either<InputFile<'a, S>, &'a [u8]>
    ensures { either (λ file. left_of S.File.remaining (S.bytes_of file.system.now file.name.now) file.stage) (λ bytes. Some bytes.now) result ≡ known_of (S.bytes_of system.now) (Some standard.now) source.now }
{
    match source {
        Source::Standard => Either::Right(standard),
        Source::Named(name) => Either::Left(InputFile::closed(system, name.as_str())),
    }
}

// Opens the inputs of these sources, in order.
fn open_each<'a, S: FileSystem, E: Write>(
    system: &'a S,
    alloc: Global,
    sources: &'a [Source],
    standard: &'a [u8],
    errors: &mut E,
) -> Result<Vec<Either<InputFile<'a, S>, &'a [u8]>>, NotOpened>
    ensures opened { IfOk result (λ inputs. map (either (λ file. left_of S.File.remaining (S.bytes_of file.system.now file.name.now) file.stage) (λ bytes. Some bytes.now)) inputs.items ≡ knowns_of (S.bytes_of system.now) (Some standard.now) sources.now) }
    ensures can { OnOk result (CanOpenAll (S.opens_of system.now) sources.now) }
    ensures not_opened { IfErr result (AreNotOpened (S.opens_of system.now) sources.now (E.contents errors.old) (E.contents errors.new)) }
    ensures silent { OnOk result (errors.new ≡ errors.old) }
{
    let mut inputs = Vec::new(alloc);
    for source in sources {
        match open_source(system, source, standard, errors) {
            Ok(input) => inputs.push(input)?,
            Err(_status) => return Err(NotOpened::Reported),
        }
    }
    Ok(inputs)
}

// Adds the inputs of these sources, of which each file is opened when it is read.
fn add_closed<'a, S: FileSystem>(
    system: &'a S,
    sources: &'a [Source],
    standard: &'a [u8],
    mut inputs: Vec<Either<InputFile<'a, S>, &'a [u8]>>,
) -> Result<Vec<Either<InputFile<'a, S>, &'a [u8]>>, NotOpened>
    ensures added { IfOk result (λ all. map (either (λ file. left_of S.File.remaining (S.bytes_of file.system.now file.name.now) file.stage) (λ bytes. Some bytes.now)) all.items ≡ map (either (λ file. left_of S.File.remaining (S.bytes_of file.system.now file.name.now) file.stage) (λ bytes. Some bytes.now)) inputs.entry.items ++ knowns_of (S.bytes_of system.now) (Some standard.now) sources.now) }
    ensures memory { IfErr result (λ e. e ≡ NotOpened.Memory) }
{
    for source in sources {
        inputs.push(closed_source(system, source, standard))?;
    }
    Ok(inputs)
}

/// Opens the inputs of these sources: the first `at_once` of them now, in order, and each other file when it is read. Standard
/// input, if it is among them, has the bytes `standard`. A file that cannot be opened now is reported.
pub(crate) fn open_all<'a, S: FileSystem, E: Write>(
    system: &'a S,
    alloc: Global,
    sources: &'a [Source],
    at_once: usize,
    standard: &'a [u8],
    errors: &mut E,
) -> Result<Vec<Either<InputFile<'a, S>, &'a [u8]>>, NotOpened>
    ensures opened { IfOk result (λ inputs. map (either (λ file. left_of S.File.remaining (S.bytes_of file.system.now file.name.now) file.stage) (λ bytes. Some bytes.now)) inputs.items ≡ knowns_of (S.bytes_of system.now) (Some standard.now) sources.now) }
    ensures can { OnOk result (CanOpenAll (S.opens_of system.now) (take at_once sources.now)) }
    ensures not_opened { IfErr result (AreNotOpened (S.opens_of system.now) (take at_once sources.now) (E.contents errors.old) (E.contents errors.new)) }
    ensures silent { OnOk result (errors.new ≡ errors.old) }
{
    let (first, later) = sources.split_at(at_once.min(sources.len()));
    match open_each(system, alloc, first, standard, errors) {
        Ok(inputs) => add_closed(system, later, standard, inputs),
        Err(why) => Err(why),
    }
}
