//! How much room a history has.

ghost use Rattle.std.specs.Prelude.{◌≡◌, ◌<◌, IfOk, OnOk};

use crate::folder_path::FolderPath;
use crate::host_folder::{metadata, remove};
use std::alloc::AllocError;
use std::fs::{File, Metadata, OpenOptions};
use std::io::{ErrorKind, Write};
use std::os::unix::fs::MetadataExt;
use std::path::Path;
use std::rt::Files;
use std::time::Clock;
use std::{fs, io};

// The file by which a folder is tried, and how many pieces of which length it has.
const TRIAL: &str = "room.new";

const PIECES: usize = 16;

const PIECE: usize = 4096;

// The unit of the blocks that a file takes (stat(2)).
const BLOCK: u64 = 512;

// How long a count holds at least, in milliseconds, and how many times as long as it took.
const HOLDS: u64 = 1000;

const SHARE: u64 = 20;

// How many bytes may come in a millisecond: until the limit is that near, a count holds.
const PACE: u64 = 100_000;

/// How much room the folder of a history has, which may have so many bytes on the disk. They are counted now and then: more
/// often as they come near the limit.
#[derive(Drop)]
pub struct HistoryRoom<R: Files<File = File> + Clock + AllocGlobal + Copy> {
    rt: R,
    path: FolderPath,
    limit: u64,
    used: u64,
    // Until when the count holds, in milliseconds of the clock.
    until: u64,
}

// How many bytes of the disk a file takes.
fn taken_by(metadata: &Metadata) -> u64 {
    metadata.len().max(metadata.blocks().saturating_mul(BLOCK))
}

// How many bytes the files of a folder take, without those in folders below it.
fn count_files<R: Files<File = File> + AllocGlobal + Copy>(
    rt: &R,
    path: Path<'_>,
) -> io::Result<u64> {
    let mut sum: u64 = 0;
    for entry in fs::read_dir(rt, path)? {
        if let Some(metadata) = metadata(rt, entry?.path())? {
            if metadata.is_file() {
                sum = sum.saturating_add(taken_by(&metadata));
            }
        }
    }
    Ok(sum)
}

// How many bytes the files of a history take, those of each day too.
fn count_history<R: Files<File = File> + AllocGlobal + Copy>(
    rt: &R,
    path: Path<'_>,
) -> io::Result<u64> {
    let mut sum = count_files(rt, path)?;
    for entry in fs::read_dir(rt, path)? {
        let entry = entry?;
        if entry.file_type()?.is_dir() {
            sum = sum.saturating_add(count_files(rt, entry.path())?);
        }
    }
    Ok(sum)
}

// Writes the file by which a folder is tried.
fn write_trial(file: &mut File) -> io::Result<()> {
    for _piece in 0..PIECES {
        file.write_all(&[0; PIECE])?;
    }
    Ok(())
}

impl<R: Files<File = File> + Clock + AllocGlobal + Copy> HistoryRoom<R> {
    /// The folder of this name, with at most so many bytes. Nothing is counted yet.
    ///
    /// # Errors
    ///
    /// Out of memory.
    pub fn new(rt: R, dir: &str, limit: u64) -> Result<Self, AllocError>
        ensures limit { IfOk result (λ room. room.limit ≡ limit) }
    {
        Ok(HistoryRoom {
            rt,
            path: FolderPath::new(rt.alloc(), dir)?,
            limit,
            used: 0,
            until: 0,
        })
    }

    // The milliseconds of the clock; 0 if it fails.
    fn now(&self) -> u64 {
        match self.rt.monotonic() {
            Ok(time) => u64::try_from(time.as_millis()).unwrap_or(u64::MAX),
            Err(_) => 0,
        }
    }

    // Counts again, unless the last count still holds.
    fn count(&mut self) -> io::Result<()>
        ensures { self.new.limit ≡ self.old.limit }
    {
        let begun = self.now();
        if begun < self.until {
            return Ok(());
        }
        self.used = count_history(&self.rt, self.path.dir())?;
        let ended = self.now();
        let took = ended.saturating_sub(begun).saturating_mul(SHARE);
        let near = self.limit.saturating_sub(self.used) / PACE;
        self.until = ended.saturating_add(HOLDS.max(took).max(near));
        Ok(())
    }

    // Tries whether 64 KiB can be written.
    fn try_out(&mut self) -> io::Result<()>
        ensures { self.new.limit ≡ self.old.limit }
    {
        let path = self.path.of(TRIAL)?;
        remove(&self.rt, path)?;
        let mut options = OpenOptions::new();
        options.write(true).create_new(true);
        let mut file = options.open(&self.rt, path)?;
        let written = write_trial(&mut file);
        remove(&self.rt, path)?;
        written
    }

    /// Looks whether there is room for a file.
    ///
    /// # Errors
    ///
    /// `QuotaExceeded` if the history has as many bytes as it may; what the system reports if 64 KiB cannot be written there.
    pub fn look(&mut self) -> io::Result<()>
        ensures room { OnOk result (self.new.used < self.new.limit) }
        ensures limit { self.new.limit ≡ self.old.limit }
    {
        self.try_out()?;
        self.count()?;
        if self.used < self.limit {
            Ok(())
        } else {
            Err(io::Error::from(ErrorKind::QuotaExceeded))
        }
    }
}
