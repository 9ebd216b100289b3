//! A draft in a file beside the one that it is to replace.

ghost use Rattle.std.specs.Prelude.{◌≤◌, length, IfOk};

use crate::permissions::permissions_kept;
use std::fs::{File, Metadata};
use std::io::{ErrorKind, Write};
use std::path::PathBuf;
use std::random::RandomSource;
use std::rt::Files;
use std::{fs, io};

// How many names are tried for a draft.
const TRIES: u32 = 8;

/// A file in the folder of another one, which it is to replace. It is made when something is written, under a random name
/// that nothing else has.
#[derive(Drop)]
pub(crate) struct DraftFile {
    // The file that it replaces, and what the system says of that.
    target: PathBuf,
    metadata: Metadata,
    // The draft, and its name.
    made: Option<(File, PathBuf)>,
}

// A random name in the folder of a file.
fn draft_name<P: RandomSource + AllocGlobal>(rt: &P, target: &PathBuf) -> io::Result<PathBuf> {
    let mut random = [0; 8];
    rt.fill_bytes(&mut random)?;
    let number = u64::from_le_bytes(random);
    let name = format!(in rt.alloc(); ".tws-draft-{number:016x}")?;
    Ok(target.with_file_name(rt.alloc(), name.as_str())?)
}

// A new file in the folder of a file, and its name.
fn create<P: Files<File = File> + RandomSource + AllocGlobal>(
    rt: &P,
    target: &PathBuf,
) -> io::Result<(File, PathBuf)> {
    for _try in 0..TRIES {
        let draft = draft_name(rt, target)?;
        match File::create_new(rt, draft.as_path()) {
            Ok(file) => return Ok((file, draft)),
            Err(e) => {
                if e.kind() != ErrorKind::AlreadyExists {
                    return Err(e);
                }
            }
        }
    }
    Err(io::Error::from(ErrorKind::AlreadyExists))
}

// Gives a new file the permissions of the one that it replaces. If a standard stream is closed, the new file gets its
// descriptor, and what is printed would go into the file: the clone that is returned never has such a descriptor.
fn prepare(file: &File, old: &Metadata) -> io::Result<File> {
    if let Some(permissions) = permissions_kept(old, &file.metadata()?) {
        file.set_permissions(permissions)?;
    }
    file.try_clone()
}

impl DraftFile {
    /// A draft for this file, of which the system says this. No file is made yet.
    pub(crate) fn new(target: PathBuf, metadata: Metadata) -> Self {
        DraftFile {
            target,
            metadata,
            made: None,
        }
    }

    /// Makes the file, if it is not made yet.
    pub(crate) fn make<P: Files<File = File> + RandomSource + AllocGlobal>(
        &mut self,
        rt: &P,
    ) -> io::Result<()> {
        if self.made.is_some() {
            return Ok(());
        }
        let (file, draft) = create(rt, &self.target)?;
        match prepare(&file, &self.metadata) {
            Ok(file) => {
                self.made = Some((file, draft));
                Ok(())
            }
            Err(e) => {
                let _ = fs::remove_file(rt, draft.as_path());
                Err(e)
            }
        }
    }

    /// Removes the file, if it is made. What cannot be removed stays.
    pub(crate) fn remove<P: Files<File = File>>(&mut self, rt: &P) {
        if let Some((_, draft)) = &self.made {
            let _ = fs::remove_file(rt, draft.as_path());
        }
        self.made = None;
    }

    /// Writes bytes into the file, which is made first, and returns how many.
    pub(crate) fn write<P: Files<File = File> + RandomSource + AllocGlobal>(
        &mut self,
        rt: &P,
        buf: &[u8],
    ) -> io::Result<usize>
        ensures { IfOk result (λ count. count ≤ length buf.now) }
    {
        self.make(rt)?;
        match &mut self.made {
            Some((file, _)) => file.write(buf),
            None => Err(io::Error::from(ErrorKind::NotFound)),
        }
    }

    /// Puts the file in place of the one that it replaces, once it is on the disk.
    pub(crate) fn replace<P: Files<File = File> + RandomSource + AllocGlobal>(
        &mut self,
        rt: &P,
    ) -> io::Result<()> {
        self.make(rt)?;
        match &self.made {
            Some((file, draft)) => {
                file.sync_all()?;
                fs::rename(rt, draft.as_path(), self.target.as_path())
            }
            None => Err(io::Error::from(ErrorKind::NotFound)),
        }
    }
}
