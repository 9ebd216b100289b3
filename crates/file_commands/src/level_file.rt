//! The file with the list of levels that `page` may be given.

ghost use Rattle.std.specs.Prelude.{◌≡◌, ◌≢◌, [], IfOk, IfErr, OnOk, MatchOption, option_map, string_bytes};
ghost use Rattle.tws_pages.specs.Levels.{levels_in};
ghost use Rattle.file_commands.specs.Page.{AreGiven, AreNotGiven, GivesNoList, HasNoLevel, IsLevelList};

use command_line::{ToolFault, UNREADABLE, open_named, report};
use show_commands::read_bytes;
use std::alloc::{AllocError, Global};
use std::io::Write;
use system_files::FileSystem;
use tws_pages::{Level, read_levels};

// The levels in these bytes, if there are any.
fn levels_in(alloc: Global, bytes: &[u8]) -> Result<Option<Vec<Level>>, AllocError>
    ensures { IfOk result (λ found. MatchOption found (HasNoLevel bytes.now) (λ levels. (levels.items ≡ levels_in bytes.now) × (levels.items ≢ []))) }
{
    let Ok(text) = str::from_utf8(bytes) else {
        return Ok(None);
    };
    let levels = read_levels(alloc, text)?;
    if levels.is_empty() {
        Ok(None)
    } else {
        Ok(Some(levels))
    }
}

// Reports that a file has no list of levels, and returns the status.
fn no_level<E: Write>(name: &str, errors: &mut E) -> u8
    ensures { result ≡ 3 }
{
    let _ = writeln!(
        errors,
        "tws: {name}: no line is a level's: number,password,name,limit"
    );
    UNREADABLE
}

// Reads the levels in the file of this name. A fault is reported, and its status returned.
fn read_list<S: FileSystem, E: Write>(
    system: &S,
    alloc: Global,
    name: &str,
    errors: &mut E,
) -> Result<Vec<Level>, u8>
    ensures some { IfOk result (λ levels. IsLevelList (S.bytes_of system.now name.now) levels.items) }
    ensures none { IfErr result (GivesNoList (S.bytes_of system.now name.now)) }
    ensures silent { OnOk result (errors.new ≡ errors.old) }
{
    let mut file = match open_named(system, name, errors) {
        Ok(file) => file,
        Err(status) => return Err(status),
    };
    let bytes = match read_bytes(alloc, &mut file) {
        Ok(bytes) => bytes,
        Err(fault) => return Err(report(fault, &[], errors)),
    };
    match levels_in(alloc, &bytes) {
        Ok(Some(levels)) => Ok(levels),
        Ok(None) => Err(no_level(name, errors)),
        Err(AllocError) => Err(report(ToolFault::Memory, &[], errors)),
    }
}

/// Reads the levels in the file of this name, if one was given. A fault is reported, and its status returned.
pub(crate) fn levels_given<S: FileSystem, E: Write>(
    system: &S,
    alloc: Global,
    name: &Option<String>,
    errors: &mut E,
) -> Result<Option<Vec<Level>>, u8>
    ensures some { IfOk result (λ levels. AreGiven (S.bytes_of system.now) (option_map string_bytes name.now) (option_map (λ found. found.items) levels)) }
    ensures none { IfErr result (AreNotGiven (S.bytes_of system.now) (option_map string_bytes name.now)) }
    ensures silent { OnOk result (errors.new ≡ errors.old) }
{
    match name {
        Some(name) => match read_list(system, alloc, name.as_str(), errors) {
            Ok(levels) => Ok(Some(levels)),
            Err(status) => Err(status),
        },
        None => Ok(None),
    }
}
