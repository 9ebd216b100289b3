//! The system's files.

ghost use Rattle.std.specs.Prelude.{◌≡◌, None, IfOk};

use crate::draft_file::DraftFile;
use crate::file_system::FileSystem;
use crate::solution_files::solution_files_below;
use crate::system_draft::{Place, SystemDraft};
use crate::unlisted::Unlisted;
use std::fs::{File, OpenOptions};
use std::io::{ErrorKind, Read};
use std::os::unix::fs::FileTypeExt;
use std::random::RandomSource;
use std::rt::Files;
use std::{fs, io};

/// The files of the system, as a runtime opens them. They have no ghost contents.
///
/// A draft is a file beside its target, unless that is not a regular file: then it is written into the target itself.
#[derive(Clone, Copy)]
pub struct System<P: Files<File = File> + RandomSource + AllocGlobal + Copy>(pub P);

/// A file of the system that is open to be read. It has no ghost contents.
#[derive(Drop)]
pub struct SystemFile(File);

impl Read for SystemFile {
    fn read(&mut self, buf: &mut [u8]) -> io::Result<usize> {
        self.0.read(buf)
    }
}

impl<P: Files<File = File> + RandomSource + AllocGlobal + Copy> System<P> {
    // A draft that is written into the file itself, which is not a regular one.
    fn begin_itself(&self, name: &str, is_fifo: bool) -> io::Result<SystemDraft<P>>
        ensures { IfOk result (λ draft. draft.written ≡ 0) }
    {
        // A FIFO that nobody reads would not be opened to be written. One that is open to be read and written is: without
        // another reader, a write then fails.
        let held = if is_fifo {
            Some(
                OpenOptions::new()
                    .read(true)
                    .write(true)
                    .open(&self.0, name)?,
            )
        } else {
            None
        };
        // If a standard stream is closed, the new file gets its descriptor, and what is printed would go into the file. A
        // clone never has the descriptor of a standard stream.
        let file = fs::create(&self.0, name)?;
        let place = Place::Itself(file.try_clone()?);
        drop(held);
        Ok(SystemDraft::new(self.0, place))
    }

    // A draft that is written beside a regular file, which is made if there is none and `is_new`. The file has to be one
    // that may be written. What a link leads to is replaced, not the link. The draft is made and removed at once, to see
    // whether that can be done: so none is left if the process ends before the draft is written.
    fn begin_beside(&self, name: &str, is_new: bool) -> io::Result<SystemDraft<P>>
        ensures { IfOk result (λ draft. draft.written ≡ 0) }
    {
        let file = OpenOptions::new()
            .write(true)
            .create(is_new)
            .open(&self.0, name)?;
        let target = fs::canonicalize(&self.0, name)?;
        let mut beside = DraftFile::new(target, file.metadata()?);
        beside.make(&self.0)?;
        beside.remove(&self.0);
        Ok(SystemDraft::new(self.0, Place::Beside(beside)))
    }
}

impl<P: Files<File = File> + RandomSource + AllocGlobal + Copy> FileSystem for System<P> {
    type File = SystemFile;

    type Draft = SystemDraft<P>;

    ghost bytes_of = { λ _ _. None };

    ghost drafted_of = { λ _ _. None };

    ghost opens_of = { λ _ _. None };

    ghost below_of = { λ _ _. None };

    fn open(&self, name: &str) -> io::Result<SystemFile> {
        let file = fs::open(&self.0, name)?;
        // A folder can be opened, but not read. Its name is still known here.
        if file.metadata()?.is_dir() {
            return Err(io::Error::from(ErrorKind::IsADirectory));
        }
        Ok(SystemFile(file))
    }

    // A solution file is a regular one whose name ends in `.tws`, or a link to one. No link to a folder is followed, unless
    // it is this name itself.
    fn files_below(&self, name: &str) -> Result<Option<Vec<String>>, Unlisted> {
        match fs::metadata(&self.0, name) {
            Ok(metadata) if metadata.is_dir() => { Ok(Some(solution_files_below(&self.0, name)?)) }
            _ => Ok(None),
        }
    }

    fn begin(&mut self, name: &str) -> io::Result<SystemDraft<P>>
        ensures empty { IfOk result (λ draft. draft.written ≡ 0) }
    {
        match fs::metadata(&self.0, name) {
            Ok(metadata) => {
                if metadata.is_file() {
                    self.begin_beside(name, false)
                } else {
                    self.begin_itself(name, metadata.file_type().is_fifo())
                }
            }
            Err(e) => {
                if e.kind() == ErrorKind::NotFound {
                    self.begin_beside(name, true)
                } else {
                    Err(e)
                }
            }
        }
    }

    fn publish(&mut self, _name: &str, mut draft: SystemDraft<P>) -> io::Result<()> {
        match draft.replace() {
            Ok(()) => Ok(()),
            Err(e) => {
                draft.remove();
                Err(e)
            }
        }
    }

    fn abandon(&mut self, mut draft: SystemDraft<P>) -> Option<io::Error> {
        draft.remove();
        draft.error()
    }
}
