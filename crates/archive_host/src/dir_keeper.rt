//! A keeper over a folder of the system.

ghost use Rattle.std.specs.Prelude.{◌≡◌, ◌≢◌, ◌≤◌, ◌&&◌, true, false, None, Err, IfOk, OnOk, OnErr, IsSome, is_none};
ghost use Rattle.archive_keepers.specs.Limited.{saturating_sum};
ghost use Rattle.byte_output.specs.Failures.{Rises};

use crate::folder_path::FolderPath;
use crate::host_folder::{HostFolder, OpenFault, fault_of, metadata};
use crate::known_file::{KnownFile, Place};
use archive_keepers::{FolderKeeper, Replaced, ServedKeeper, kept_name};
use archive_table::{KeepFault, Keeper};
use folders::CallFault;
use std::alloc::Allocator;
use std::fs::File;
use std::rt::Files;
use std::time::Clock;
use std::{fs, io};
use tws_best::Collection;
use tws_file::Ruleset;

/// A keeper over a folder of the system. Before each `keep` it looks whether the folder's name still leads to the folder that
/// was opened, and whether the collection's file is the one that was kept or loaded last. If someone else has replaced or
/// removed either, nothing is kept any more, and the keeper is not usable.
#[derive(Drop)]
pub struct DirKeeper<R: Files<File = File> + Clock + AllocGlobal + Copy> {
    keeper: FolderKeeper<HostFolder<R>>,
    rt: R,
    path: FolderPath,
    place: Place,
    lynx: KnownFile,
    ms: KnownFile,
    replaced: Option<Replaced>,
    // How many calls of `keep` a look has refused, saturating, and the error of the last look that failed.
    refused: u64,
    error: Option<io::Error>,
}

/// The fault of a keeper for an error of the system.
pub(crate) fn keep_fault(cause: &io::Error) -> KeepFault {
    match fault_of(cause) {
        CallFault::Device => KeepFault::Device,
        CallFault::Memory => KeepFault::Memory,
    }
}

impl<R: Files<File = File> + Clock + AllocGlobal + Copy> DirKeeper<R> {
    /// Opens the folder of this name, and locks it while it is open.
    ///
    /// # Errors
    ///
    /// Those of `HostFolder::open`.
    pub fn open(rt: R, dir: &str) -> Result<Self, OpenFault>
        ensures refused { IfOk result (λ k. k.refused ≡ 0) }
        ensures failures { IfOk result (λ k. k.keeper.failures ≡ 0) }
        ensures usable { IfOk result (λ k. (k.keeper.is_usable ≡ true) × (k.replaced ≡ None)) }
    {
        let folder = HostFolder::open(rt, dir)?;
        let path = match FolderPath::new(rt.alloc(), dir) {
            Ok(path) => path,
            Err(_) => return Err(OpenFault::Memory),
        };
        let place = match folder.place() {
            Ok(place) => place,
            Err(cause) => return Err(OpenFault::NoFolder(cause)),
        };
        Ok(DirKeeper {
            keeper: FolderKeeper::new(folder),
            rt,
            path,
            place,
            lynx: KnownFile::Unknown,
            ms: KnownFile::Unknown,
            replaced: None,
            refused: 0,
            error: None,
        })
    }

    /// Removes the drafts that are there, and looks whether something can be kept, as `FolderKeeper::clear_drafts` does.
    ///
    /// # Errors
    ///
    /// `Device` if the folder cannot be written to, or not synced. Then a draft may be left.
    pub fn clear_drafts(&mut self) -> Result<(), KeepFault>
        ensures usable { self.new.keeper.is_usable ≡ self.old.keeper.is_usable }
        ensures replaced { self.new.replaced ≡ self.old.replaced }
        ensures more { self.old.keeper.failures ≤ self.new.keeper.failures }
        ensures failed { result ≡ Err KeepFault.Device → Rises self.old.keeper.failures self.new.keeper.failures }
        ensures steady { result ≢ Err KeepFault.Device → self.new.keeper.failures ≡ self.old.keeper.failures }
    {
        self.keeper.clear_drafts()
    }

    // What is found of the file with the collection of this ruleset.
    fn found(&mut self, ruleset: Ruleset) -> io::Result<KnownFile>
        ensures keeper { self.new.keeper ≡ self.old.keeper }
        ensures replaced { self.new.replaced ≡ self.old.replaced }
        ensures refused { self.new.refused ≡ self.old.refused }
    {
        let path = self.path.of(kept_name(ruleset))?;
        Ok(KnownFile::of(metadata(&self.rt, path)?))
    }

    // Whether the folder's name leads to the folder that was opened. It is an error if it leads to none, which may be away for
    // a while.
    fn is_in_place(&self) -> io::Result<bool> {
        Ok(Place::of(&fs::metadata(&self.rt, self.path.dir())?) == self.place)
    }

    // What is known of the file with the collection of this ruleset.
    fn known(&self, ruleset: Ruleset) -> KnownFile {
        match ruleset {
            Ruleset::Lynx => self.lynx,
            Ruleset::Ms => self.ms,
        }
    }

    // From now on this is known of that file.
    fn set_known(&mut self, ruleset: Ruleset, known: KnownFile)
        ensures keeper { self.new.keeper ≡ self.old.keeper }
        ensures replaced { self.new.replaced ≡ self.old.replaced }
        ensures refused { self.new.refused ≡ self.old.refused }
    {
        match ruleset {
            Ruleset::Lynx => self.lynx = known,
            Ruleset::Ms => self.ms = known,
        }
    }

    // What was replaced, of the folder and the file with the collection of this ruleset.
    fn look(&mut self, ruleset: Ruleset) -> io::Result<Option<Replaced>>
        ensures keeper { self.new.keeper ≡ self.old.keeper }
        ensures replaced { self.new.replaced ≡ self.old.replaced }
        ensures refused { self.new.refused ≡ self.old.refused }
    {
        if !self.is_in_place()? {
            return Ok(Some(Replaced::Folder));
        }
        let found = self.found(ruleset)?;
        let known = self.known(ruleset);
        if known == KnownFile::Unknown || found == known {
            Ok(None)
        } else {
            Ok(Some(Replaced::Collection(ruleset)))
        }
    }

    // Looks whether anything was replaced. From then on nothing is kept.
    fn check(&mut self, ruleset: Ruleset) -> Result<(), KeepFault>
        ensures keeper { self.new.keeper ≡ self.old.keeper }
        ensures refused { self.new.refused ≡ self.old.refused }
        ensures unreplaced { OnOk result (self.new.replaced ≡ None) }
        ensures replaced { IsSome self.new.replaced → result ≡ Err KeepFault.Device }
        ensures for_good { IsSome self.old.replaced → self.new.replaced ≡ self.old.replaced }
    {
        if self.replaced.is_some() {
            return Err(KeepFault::Device);
        }
        match self.look(ruleset) {
            Ok(None) => Ok(()),
            Ok(replaced) => {
                self.replaced = replaced;
                Err(KeepFault::Device)
            }
            Err(cause) => {
                self.error = Some(cause);
                Err(keep_fault(&cause))
            }
        }
    }
}

impl<R: Files<File = File> + Clock + AllocGlobal + Copy> Keeper for DirKeeper<R> {
    ghost calls = { λ _. None };

    ghost failed = { λ k. saturating_sum k.keeper.failures k.refused };

    fn keep<A: Allocator>(
        &mut self,
        ruleset: Ruleset,
        collection: &Collection<A>,
    ) -> Result<(), KeepFault>
        // Once something was replaced, nothing is kept any more.
        ensures replaced { IsSome self.new.replaced → (result ≡ Err KeepFault.Device) × (self.new.keeper ≡ self.old.keeper) }
        ensures for_good { IsSome self.old.replaced → self.new.replaced ≡ self.old.replaced }
        ensures usable { OnOk result (self.old.keeper.is_usable ≡ true) }
        ensures still_usable { OnOk result (self.new.keeper.is_usable ≡ true) }
        ensures unusable { self.old.keeper.is_usable ≡ false → self.new.keeper.is_usable ≡ false }
        ensures more { saturating_sum self.old.keeper.failures self.old.refused ≤ saturating_sum self.new.keeper.failures self.new.refused }
        ensures failed { result ≡ Err KeepFault.Device → Rises (saturating_sum self.old.keeper.failures self.old.refused) (saturating_sum self.new.keeper.failures self.new.refused) }
    {
        self.error = None;
        if let Err(fault) = self.check(ruleset) {
            self.refused = self.refused.saturating_add(1);
            return Err(fault);
        }
        let result = self.keeper.keep(ruleset, collection);
        if result.is_ok() {
            let known = self.found(ruleset).unwrap_or(KnownFile::Unknown);
            self.set_known(ruleset, known);
        }
        result
    }

    fn load<A: Allocator>(
        &mut self,
        alloc: A,
        ruleset: Ruleset,
    ) -> Result<Option<Vec<u8, A>>, KeepFault>
        ensures usable { self.new.keeper.is_usable ≡ self.old.keeper.is_usable }
        ensures replaced { self.new.replaced ≡ self.old.replaced }
        ensures more { saturating_sum self.old.keeper.failures self.old.refused ≤ saturating_sum self.new.keeper.failures self.new.refused }
        ensures failed { result ≡ Err KeepFault.Device → Rises (saturating_sum self.old.keeper.failures self.old.refused) (saturating_sum self.new.keeper.failures self.new.refused) }
    {
        self.error = None;
        // A file that comes in its place while it is read is another one.
        let known = self.found(ruleset).unwrap_or(KnownFile::Unknown);
        let result = self.keeper.load(alloc, ruleset);
        self.set_known(ruleset, known);
        result
    }

    fn failures(&self) -> u64 {
        self.keeper.failures().saturating_add(self.refused)
    }
}

impl<R: Files<File = File> + Clock + AllocGlobal + Copy> ServedKeeper for DirKeeper<R> {
    ghost usable = { λ k. k.keeper.is_usable && is_none k.replaced };

    fn is_usable(&self) -> bool {
        self.keeper.is_usable() && self.replaced.is_none()
    }

    fn replaced(&self) -> Option<Replaced>
        ensures { result ≡ self.now.replaced }
    {
        self.replaced
    }

    fn unreadable(&self) -> u64 {
        0
    }

    fn last_error(&self) -> Option<io::Error> {
        match self.error {
            Some(cause) => Some(cause),
            None => self.keeper.last_error(),
        }
    }
}
