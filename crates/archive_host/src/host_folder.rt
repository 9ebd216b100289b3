//! A folder of the system.

ghost use Rattle.std.specs.Prelude.{◌≡◌, ◌≤◌, false, None, Some, IfOk, OnErr, IsSome, option_map, string_bytes};
ghost use Rattle.byte_output.specs.Failures.{Rises};

use crate::file_match::FileMatch;
use crate::folder_path::FolderPath;
use crate::history_room::HistoryRoom;
use crate::host_file::HostFile;
use crate::known_file::Place;
use archive_history::HistoryFolder;
use folders::{CallFault, Contents, Folder, RenameFault};
use std::alloc::Allocator;
use std::fs::{File, Metadata, OpenOptions, TryLockError};
use std::io::{ErrorKind, Read, Write};
use std::path::Path;
use std::rt::Files;
use std::time::Clock;
use std::{fs, io};
use system_files::permissions_kept;
use thiserror::Error;

/// Why a folder cannot be opened.
#[derive(Clone, Copy, Debug, Error)]
pub enum OpenFault {
    /// There is no folder of this name, or the system does not open it, for this cause.
    #[error("no folder: {0}")]
    NoFolder(io::Error),
    /// It is open already, in this program or another.
    #[error("folder in use")]
    InUse,
    /// Out of memory.
    #[error("out of memory")]
    Memory,
}

// The folder of a day, which is open.
#[derive(Drop)]
struct OpenDay {
    name: String,
    folder: File,
}

/// A folder of the system. A new file gets the permissions of the file that it replaces, as `permissions_kept` says; one
/// that is no regular file, such as a symbolic link, is neither replaced nor opened. It has no model.
#[derive(Drop)]
pub struct HostFolder<R: Files<File = File> + Clock + AllocGlobal + Copy> {
    rt: R,
    // The path of the file that a call is for, and of the one that it is to replace.
    path: FolderPath,
    target: FolderPath,
    // The folder itself, which is synced, and holds the lock.
    folder: File,
    // The folder of a day, if one was opened: it is synced from then on.
    day: Option<OpenDay>,
    // How much room it has, if that matters: that of a history.
    room: Option<HistoryRoom<R>>,
    faults: u64,
    error: Option<io::Error>,
}

/// The fault for an error of the system or of std. Only errors raised by std itself lack an OS error code.
pub(crate) fn fault_of(e: &io::Error) -> CallFault {
    if e.kind() == ErrorKind::OutOfMemory && e.raw_os_error().is_none() {
        CallFault::Memory
    } else {
        CallFault::Device
    }
}

// The fault of a rename. The system says that a file is not there before it changes anything.
fn rename_fault_of(e: &io::Error) -> RenameFault {
    if e.kind() == ErrorKind::NotFound {
        RenameFault::Gone
    } else {
        RenameFault::Unknown
    }
}

// Opens a folder. Nothing else is opened: that might block for ever.
fn open_folder<R: Files<File = File>>(rt: &R, dir: &str) -> io::Result<File> {
    if !fs::metadata(rt, dir)?.is_dir() {
        return Err(io::Error::from(ErrorKind::NotADirectory));
    }
    fs::open(rt, dir)
}

// Makes a folder, if there is nothing of its name. Returns whether it did.
fn make_folder<R: Files<File = File>>(rt: &R, path: Path<'_>) -> io::Result<bool> {
    match fs::create_dir(rt, path) {
        Ok(()) => Ok(true),
        Err(e) => {
            if e.kind() == ErrorKind::AlreadyExists {
                Ok(false)
            } else {
                Err(e)
            }
        }
    }
}

/// What the system knows of a file, if there is one.
pub(crate) fn metadata<R: Files<File = File>>(
    rt: &R,
    path: Path<'_>,
) -> io::Result<Option<Metadata>> {
    match fs::symlink_metadata(rt, path) {
        Ok(metadata) => Ok(Some(metadata)),
        Err(e) => {
            if e.kind() == ErrorKind::NotFound {
                Ok(None)
            } else {
                Err(e)
            }
        }
    }
}

/// Removes a file, if it is there.
pub(crate) fn remove<R: Files<File = File>>(rt: &R, path: Path<'_>) -> io::Result<()> {
    match fs::remove_file(rt, path) {
        Ok(()) => Ok(()),
        Err(e) => {
            if e.kind() == ErrorKind::NotFound {
                Ok(())
            } else {
                Err(e)
            }
        }
    }
}

// What the system knows of a regular file, if there is one. Fails if it is another one.
fn regular<R: Files<File = File>>(rt: &R, path: Path<'_>) -> io::Result<Option<Metadata>> {
    match metadata(rt, path)? {
        Some(metadata) => {
            if metadata.is_file() {
                Ok(Some(metadata))
            } else {
                Err(io::Error::from(ErrorKind::InvalidInput))
            }
        }
        None => Ok(None),
    }
}

// Gives a new file the permissions of the one that it is to replace, as far as it may have them.
fn keep_permissions(file: &File, old: &Metadata) -> io::Result<()> {
    if let Some(permissions) = permissions_kept(old, &file.metadata()?) {
        file.set_permissions(permissions)?;
    }
    Ok(())
}

impl<R: Files<File = File> + Clock + AllocGlobal + Copy> HostFolder<R> {
    /// Opens the folder of this name. No later call allocates anything but the text that it reads, the name of a day, and
    /// the path of a name of more than 126 bytes.
    ///
    /// # Errors
    ///
    /// What the system reports, also if the name is empty; `NotADirectory` if there is no folder of this name.
    pub fn open_unlocked(rt: R, dir: &str) -> io::Result<Self>
        ensures path { IfOk result (λ f. string_bytes f.path.dir ≡ dir.now) }
        ensures target { IfOk result (λ f. string_bytes f.target.dir ≡ dir.now) }
        ensures faults { IfOk result (λ f. f.faults ≡ 0) }
        ensures error { IfOk result (λ f. f.error ≡ None) }
    {
        let path = FolderPath::new(rt.alloc(), dir)?;
        let target = FolderPath::new(rt.alloc(), dir)?;
        let folder = open_folder(&rt, dir)?;
        Ok(HostFolder {
            rt,
            path,
            target,
            folder,
            day: None,
            room: None,
            faults: 0,
            error: None,
        })
    }

    /// The same, and locks the folder while it is open.
    ///
    /// # Errors
    ///
    /// `InUse` if the folder is locked.
    pub fn open(rt: R, dir: &str) -> Result<Self, OpenFault>
        ensures path { IfOk result (λ f. string_bytes f.path.dir ≡ dir.now) }
        ensures target { IfOk result (λ f. string_bytes f.target.dir ≡ dir.now) }
        ensures faults { IfOk result (λ f. f.faults ≡ 0) }
        ensures error { IfOk result (λ f. f.error ≡ None) }
    {
        let folder = match HostFolder::open_unlocked(rt, dir) {
            Ok(folder) => folder,
            Err(cause) => {
                return Err(match fault_of(&cause) {
                    CallFault::Memory => OpenFault::Memory,
                    CallFault::Device => OpenFault::NoFolder(cause),
                });
            }
        };
        match folder.folder.try_lock() {
            Ok(()) => Ok(folder),
            Err(TryLockError::WouldBlock) => Err(OpenFault::InUse),
            Err(TryLockError::Error(cause)) => Err(OpenFault::NoFolder(cause)),
        }
    }

    /// Gives it so much room: without any no day is opened.
    pub fn set_room(&mut self, room: HistoryRoom<R>)
        ensures room { self.new.room ≡ Some room }
        ensures faults { self.new.faults ≡ self.old.faults }
        ensures error { self.new.error ≡ self.old.error }
    {
        self.room = Some(room);
    }

    /// What the system said of the call that failed last, `None` if none has.
    pub fn last_error(&self) -> Option<io::Error>
        ensures { result ≡ self.now.error }
    {
        self.error
    }

    /// Where the folder is.
    pub(crate) fn place(&self) -> io::Result<Place> {
        Ok(Place::of(&self.folder.metadata()?))
    }

    // Notes a call that failed.
    fn note(&mut self, error: io::Error)
        ensures more { self.old.faults ≤ self.new.faults }
        ensures rises { Rises self.old.faults self.new.faults }
        ensures error { self.new.error ≡ Some error }
    {
        self.faults = self.faults.saturating_add(1);
        self.error = Some(error);
    }

    // The result of a call, which is counted if it failed.
    fn counted<T>(&mut self, outcome: io::Result<T>) -> Result<T, CallFault>
        ensures more { self.old.faults ≤ self.new.faults }
        ensures fault { OnErr result (Rises self.old.faults self.new.faults) }
        ensures error { OnErr result (IsSome self.new.error) }
    {
        match outcome {
            Ok(value) => Ok(value),
            Err(e) => {
                self.note(e);
                Err(fault_of(&e))
            }
        }
    }

    // `contains` without counting faults.
    fn has_file(&mut self, name: &str) -> io::Result<bool>
        ensures faults { self.new.faults ≡ self.old.faults }
    {
        Ok(metadata(&self.rt, self.path.of(name)?)?.is_some())
    }

    // `remove` without counting faults.
    fn remove_file(&mut self, name: &str) -> io::Result<()>
        ensures faults { self.new.faults ≡ self.old.faults }
    {
        remove(&self.rt, self.path.of(name)?)
    }

    // `create_new` without counting faults.
    fn create_file(&mut self, name: &str, target: &str) -> io::Result<HostFile>
        ensures faults { self.new.faults ≡ self.old.faults }
    {
        let old = regular(&self.rt, self.target.of(target)?)?;
        let mut options = OpenOptions::new();
        options.write(true).create_new(true);
        let file = options.open(&self.rt, self.path.of(name)?)?;
        if let Some(old) = old {
            keep_permissions(&file, &old)?;
        }
        Ok(HostFile::new(file))
    }

    // `rename` without counting faults.
    fn rename_file(&mut self, from: &str, to: &str) -> io::Result<()>
        ensures faults { self.new.faults ≡ self.old.faults }
    {
        let from = self.path.of(from)?;
        let to = self.target.of(to)?;
        fs::rename(&self.rt, from, to)
    }

    // Whether the folder of this day is open.
    fn is_open(&self, day: &str) -> bool {
        match &self.day {
            Some(open) => open.name.as_str() == day,
            None => false,
        }
    }

    // `open_day` without counting faults. The folder's name is on the disk if it is not new, and was opened before.
    fn day_folder(&mut self, day: &str) -> io::Result<OpenDay>
        ensures faults { self.new.faults ≡ self.old.faults }
        ensures name { IfOk result (λ d. string_bytes d.name ≡ day.now) }
    {
        if let Some(room) = &mut self.room {
            room.look()?;
        }
        let name = String::from_str(self.rt.alloc(), day)?;
        let is_open = self.is_open(day);
        let path = self.path.of(day)?;
        let is_new = make_folder(&self.rt, path)?;
        let folder = open_folder(&self.rt, path.as_str())?;
        if is_new || !is_open {
            self.folder.sync_all()?;
        }
        Ok(OpenDay { name, folder })
    }

    // Whether the file under a name has this text.
    fn matches<C: Contents>(&mut self, name: &str, text: &C) -> io::Result<bool>
        ensures faults { self.new.faults ≡ self.old.faults }
    {
        let path = self.path.of(name)?;
        if regular(&self.rt, path)?.is_none() {
            return Ok(false);
        }
        let mut matching = FileMatch::new(fs::open(&self.rt, path)?);
        // It takes no byte that differs, and none that cannot be read.
        if text.write_to(&mut matching).is_err() {
            return Ok(false);
        }
        matching.is_at_end()
    }

    // `write_short` without counting faults.
    fn write_file(&mut self, name: &str, text: &str) -> io::Result<()>
        ensures faults { self.new.faults ≡ self.old.faults }
    {
        self.remove_file(name)?;
        let mut options = OpenOptions::new();
        options.write(true).create_new(true);
        let mut file = options.open(&self.rt, self.path.of(name)?)?;
        file.write_all(text.as_bytes())
    }

    // `read` without counting faults.
    fn read_file<A: Allocator>(&mut self, alloc: A, name: &str) -> io::Result<Option<Vec<u8, A>>>
        ensures faults { self.new.faults ≡ self.old.faults }
    {
        let path = self.path.of(name)?;
        if regular(&self.rt, path)?.is_none() {
            return Ok(None);
        }
        let mut file = fs::open(&self.rt, path)?;
        let mut text = Vec::new(alloc);
        file.read_to_end(&mut text)?;
        Ok(Some(text))
    }
}

impl<R: Files<File = File> + Clock + AllocGlobal + Copy> Folder for HostFolder<R> {
    type File = HostFile;

    ghost use Rattle.folders.specs.Folder.{no_model};

    ghost has_model = { false };

    ghost model = { no_model };

    ghost undoes_renames = { false };

    ghost faults = { λ f. f.faults };

    fn contains(&mut self, name: &str) -> Result<bool, CallFault> {
        let result = self.has_file(name);
        self.counted(result)
    }

    fn remove(&mut self, name: &str) -> Result<(), CallFault> {
        let result = self.remove_file(name);
        self.counted(result)
    }

    fn create_new(&mut self, name: &str, target: &str) -> Result<HostFile, CallFault> {
        let result = self.create_file(name, target);
        self.counted(result)
    }

    fn abandon(&mut self, file: HostFile) {
        self.note(file.fault());
    }

    fn sync(&mut self, _name: &str, file: HostFile) -> Result<(), CallFault> {
        self.counted(file.sync_all())
    }

    fn rename(&mut self, from: &str, to: &str) -> Result<(), RenameFault> {
        match self.rename_file(from, to) {
            Ok(()) => Ok(()),
            Err(e) => {
                self.note(e);
                Err(rename_fault_of(&e))
            }
        }
    }

    fn sync_folder(&mut self) -> Result<(), CallFault> {
        let result = match &self.day {
            Some(open) => open.folder.sync_all(),
            None => self.folder.sync_all(),
        };
        self.counted(result)
    }

    fn read<A: Allocator>(
        &mut self,
        alloc: A,
        name: &str,
    ) -> Result<Option<Vec<u8, A>>, CallFault> {
        let result = self.read_file(alloc, name);
        self.counted(result)
    }

    fn last_error(&self) -> Option<io::Error>
        ensures error { result ≡ self.now.error }
    {
        HostFolder::last_error(self)
    }
}

impl<R: Files<File = File> + Clock + AllocGlobal + Copy> HistoryFolder for HostFolder<R> {
    ghost is_open = { λ f day. option_map (λ d. string_bytes d.name) f.day ≡ Some day };

    fn open_day(&mut self, day: &str) -> Result<(), CallFault> {
        match self.day_folder(day) {
            Ok(open) => {
                self.day = Some(open);
                Ok(())
            }
            Err(cause) => {
                self.note(cause);
                Err(fault_of(&cause))
            }
        }
    }

    fn has_text<C: Contents>(&mut self, name: &str, text: &C) -> bool {
        match self.matches(name, text) {
            Ok(is_same) => is_same,
            Err(_) => false,
        }
    }

    fn write_short(&mut self, name: &str, text: &str) -> Result<(), CallFault> {
        let result = self.write_file(name, text);
        self.counted(result)
    }
}
