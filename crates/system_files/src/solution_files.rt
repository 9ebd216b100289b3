//! The solution files below a folder of the system.

use crate::unlisted::Unlisted;
use std::fs::{File, Metadata};
use std::io::ErrorKind;
use std::rt::Files;
use std::{fs, io};

// How the name of a solution file ends.
const ENDING: &str = ".tws";

// What is looked for in a folder: a solution file, or a folder that may have some. The entries of one folder are ordered by
// their names, as all their paths begin with its own.
#[derive(PartialEq, Eq, PartialOrd, Ord, Drop)]
struct Entry {
    path: String,
    is_folder: bool,
}

// Whether this is a regular file, or a link to one. A link that leads nowhere counts as one: whoever opens it is told.
fn is_file<P: Files<File = File>>(rt: &P, path: &str, metadata: &Metadata) -> bool {
    if !metadata.is_symlink() {
        return metadata.is_file();
    }
    match fs::metadata(rt, path) {
        Ok(target) => target.is_file(),
        Err(_) => true,
    }
}

// What is at a path, if it is looked for. What has vanished since its folder was listed, such as a draft, is not.
fn entry_at<P: Files<File = File> + AllocGlobal>(rt: &P, path: &str) -> io::Result<Option<Entry>> {
    let metadata = match fs::symlink_metadata(rt, path) {
        Ok(metadata) => metadata,
        Err(cause) => {
            if cause.kind() == ErrorKind::NotFound {
                return Ok(None);
            }
            return Err(cause);
        }
    };
    let is_folder = metadata.is_dir();
    if !is_folder && !(path.ends_with(ENDING) && is_file(rt, path, &metadata)) {
        return Ok(None);
    }
    let path = String::from_str(rt.alloc(), path)?;
    Ok(Some(Entry { path, is_folder }))
}

// What is looked for in a folder, in order.
fn entries_of<P: Files<File = File> + AllocGlobal + Copy>(
    rt: &P,
    folder: &str,
) -> io::Result<Vec<Entry>> {
    let mut entries = Vec::new(rt.alloc());
    for found in fs::read_dir(rt, folder)? {
        let found = found?;
        if let Some(entry) = entry_at(rt, found.path().as_str())? {
            entries.push(entry)?;
        }
    }
    entries.sort_unstable();
    Ok(entries)
}

// Adds what is looked for in a folder to what waits, of which the last comes next.
fn add_entries<P: Files<File = File> + AllocGlobal + Copy>(
    rt: &P,
    folder: &str,
    waiting: &mut Vec<Entry>,
) -> io::Result<()> {
    for entry in entries_of(rt, folder)?.into_iter().rev() {
        waiting.push(entry)?;
    }
    Ok(())
}

// Looks at what waited: a file is found, and what is in a folder waits now.
fn look<P: Files<File = File> + AllocGlobal + Copy>(
    rt: &P,
    entry: Entry,
    waiting: &mut Vec<Entry>,
    files: &mut Vec<String>,
) -> Result<(), Unlisted> {
    let Entry { path, is_folder } = entry;
    if !is_folder {
        files.push(path)?;
        return Ok(());
    }
    match add_entries(rt, path.as_str(), waiting) {
        Ok(()) => Ok(()),
        Err(cause) => Err(Unlisted::Folder { name: path, cause }),
    }
}

/// The names of the solution files below a folder, in the order of names at each level. Folders wait in a list, so it does not
/// matter how deep they are.
pub(crate) fn solution_files_below<P: Files<File = File> + AllocGlobal + Copy>(
    rt: &P,
    folder: &str,
) -> Result<Vec<String>, Unlisted> {
    let mut files = Vec::new(rt.alloc());
    let mut waiting = Vec::new(rt.alloc());
    let path = String::from_str(rt.alloc(), folder)?;
    waiting.push(Entry {
        path,
        is_folder: true,
    })?;
    for _entry in 0..u64::MAX {
        let Some(entry) = waiting.pop() else {
            return Ok(files);
        };
        look(rt, entry, &mut waiting, &mut files)?;
    }
    Ok(files)
}
