//! Keeps on a disk that is full.

// A folder whose files take only so many bytes.
ghost use Rattle.std.specs.Prelude.{false};

use crate::samples::*;
use archive_keepers::{FolderKeeper, draft_name};
use archive_table::{KeepFault, Keeper};
use folders::{CallFault, Folder, MemoryFolder, RenameFault};
use std::alloc::Allocator;
use std::io;
use std::io::{ErrorKind, Write};
use std::test::Fail;
use test_samples::NINETY;
use tws_file::Ruleset;

// A file, and how many more bytes it takes.
#[derive(Drop)]
struct Limited {
    file: Vec<u8>,
    room: usize,
}

impl Write for Limited {
    fn write(&mut self, buf: &[u8]) -> io::Result<usize> {
        if self.room == 0 {
            return Err(io::Error::from(ErrorKind::StorageFull));
        }
        let count = buf.len().min(self.room);
        self.room -= count;
        self.file.write(&buf[..count])
    }

    fn flush(&mut self) -> io::Result<()> {
        Ok(())
    }
}

// A folder without a model, each file of which takes this many bytes.
#[derive(Drop)]
struct FullFolder {
    folder: MemoryFolder,
    room: usize,
}

impl Folder for FullFolder {
    type File = Limited;

    ghost use Rattle.folders.specs.Folder.{no_model};

    ghost has_model = { false };

    ghost model = { no_model };

    ghost undoes_renames = { false };

    ghost faults = { λ s. ⟦<MemoryFolder as Folder>⟧.faults s.folder };

    fn contains(&mut self, name: &str) -> Result<bool, CallFault> {
        self.folder.contains(name)
    }

    fn remove(&mut self, name: &str) -> Result<(), CallFault> {
        self.folder.remove(name)
    }

    fn create_new(&mut self, name: &str, target: &str) -> Result<Limited, CallFault> {
        let file = self.folder.create_new(name, target)?;
        let room = self.room;
        Ok(Limited { file, room })
    }

    fn abandon(&mut self, file: Limited) {
        self.folder.abandon(file.file);
    }

    fn sync(&mut self, name: &str, file: Limited) -> Result<(), CallFault> {
        self.folder.sync(name, file.file)
    }

    fn rename(&mut self, from: &str, to: &str) -> Result<(), RenameFault> {
        self.folder.rename(from, to)
    }

    fn sync_folder(&mut self) -> Result<(), CallFault> {
        self.folder.sync_folder()
    }

    fn read<A: Allocator>(
        &mut self,
        alloc: A,
        name: &str,
    ) -> Result<Option<Vec<u8, A>>, CallFault> {
        self.folder.read(alloc, name)
    }

    fn last_error(&self) -> Option<io::Error> {
        self.folder.last_error()
    }
}

// Whether there is a draft.
fn has_draft(folder: FullFolder) -> bool {
    folder.folder.file(draft_name(Ruleset::Lynx)).is_some()
}

// The result of a keep of NINETY over HUNDRED, and what is loaded then.
fn keep_and_load<K: Keeper>(
    rt: HostRuntime,
    keeper: &mut K,
) -> Result<(Result<(), KeepFault>, u8), Fail> {
    let result = keep(rt, keeper, NINETY)?;
    Ok((result, loaded(rt, keeper)?))
}

// The same in a folder whose files take this many bytes; whether there is a draft, and whether the keeper can still be
// used.
fn kept_in(
    rt: HostRuntime,
    room: usize,
) -> Result<((Result<(), KeepFault>, u8), bool, bool), Fail> {
    let folder = folder(rt)?;
    let mut keeper = FolderKeeper::new(FullFolder { folder, room });
    let kept = keep_and_load(rt, &mut keeper)?;
    let usable = keeper.is_usable();
    Ok((kept, has_draft(keeper.into_folder()), usable))
}

#[test]
fn a_write_that_fails(rt: HostRuntime) -> Result<(), Fail> {
    let failed = (Err(KeepFault::Device), 1);
    for (room, kept) in [(0, failed), (27, failed), (28, (Ok(()), 2))] {
        assert_eq!(rt; kept_in(rt, room)?, (kept, false, true));
    }
    Ok(())
}
