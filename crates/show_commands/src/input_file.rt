//! A file that is opened no sooner than it is read.

ghost use Rattle.std.specs.Prelude.{◌≡◌, ℕ, List, None, Some, OnErr, IfOk};
ghost use Rattle.show_commands.specs.Opening.{left_in, left_of};

use std::io::Read;
use std::{io, mem};
use system_files::FileSystem;

// How far a file was read.
#[derive(Drop)]
pub(crate) enum Stage<F> {
    // It is not open yet.
    Closed,
    Open(F),
    // It is closed again.
    Ended,
}

/// A file of a system. It is opened when it is first read, unless it was before, and closed at its end, so that of any number of
/// files that are read one after the other one is open.
#[derive(Drop)]
pub(crate) struct InputFile<'a, S: FileSystem> {
    system: &'a S,
    name: &'a str,
    stage: Stage<S::File>,
    // What the system said of the call that failed last, if one has.
    error: Option<io::Error>,
}

// The file of this name that is to be read at this stage; `None` once it has ended.
fn file_at<S: FileSystem>(
    system: &S,
    name: &str,
    stage: Stage<S::File>,
) -> io::Result<Option<S::File>>
    ensures found { IfOk result (λ file. left_in S.File.remaining file ≡ left_of S.File.remaining (S.bytes_of system.now name.now) stage) }
    ensures closed { OnErr result (left_of S.File.remaining (S.bytes_of system.now name.now) stage ≡ S.bytes_of system.now name.now) }
{
    match stage {
        Stage::Closed => match system.open(name) {
            Ok(file) => Ok(Some(file)),
            Err(cause) => Err(cause),
        },
        Stage::Open(file) => Ok(Some(file)),
        Stage::Ended => Ok(None),
    }
}

impl<'a, S: FileSystem> InputFile<'a, S> {
    /// The file of this name, which is not opened yet.
    pub(crate) fn closed(system: &'a S, name: &'a str) -> Self
        ensures left { left_of S.File.remaining (S.bytes_of result.system.now result.name.now) result.stage ≡ S.bytes_of system.now name.now }
        ensures error { result.error ≡ None }
    {
        InputFile {
            system,
            name,
            stage: Stage::Closed,
            error: None,
        }
    }

    /// The file of this name, which was opened.
    pub(crate) fn open(system: &'a S, name: &'a str, file: S::File) -> Self
        ensures left { left_of S.File.remaining (S.bytes_of result.system.now result.name.now) result.stage ≡ S.File.remaining file }
        ensures error { result.error ≡ None }
    {
        InputFile {
            system,
            name,
            stage: Stage::Open(file),
            error: None,
        }
    }

    /// Its name.
    pub(crate) fn name(&self) -> &str
        ensures { result.now ≡ self.now.name.now }
    {
        self.name
    }

    /// What the system said of the call that failed last, if one has.
    pub(crate) fn error(&self) -> Option<io::Error>
        ensures { result ≡ self.now.error }
    {
        self.error
    }
}

impl<S: FileSystem> Read for InputFile<'_, S> {
    ghost remaining = { λ f. left_of S.File.remaining (S.bytes_of f.system.now f.name.now) f.stage };

    fn read(&mut self, buf: &mut [u8]) -> io::Result<usize> {
        let stage = mem::replace(&mut self.stage, Stage::Ended);
        match file_at(self.system, self.name, stage) {
            Ok(Some(mut file)) => match file.read(buf) {
                Ok(count) => {
                    if count > 0 || buf.is_empty() {
                        self.stage = Stage::Open(file);
                    }
                    Ok(count)
                }
                Err(cause) => {
                    self.stage = Stage::Open(file);
                    self.error = Some(cause);
                    Err(cause)
                }
            },
            Ok(None) => Ok(0),
            Err(cause) => {
                self.stage = Stage::Closed;
                self.error = Some(cause);
                Err(cause)
            }
        }
    }
}
