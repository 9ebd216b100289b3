//! A keeper of the archive over a folder.

ghost use Rattle.std.specs.Prelude.{◌≡◌, ◌≢◌, ◌≤◌, ℕ, List, Option, true, false, None, Ok, Err, IfOk, OnOk, OnErr};
ghost use Rattle.tws_file.specs.declared.«ruleset».Ruleset.{Ruleset};
ghost use Rattle.tws_best.specs.Best.{collection_text};
ghost use Rattle.byte_output.specs.Failures.{Rises};
ghost use Rattle.folders.specs.declared.faults.CallFailed.{CallFailed};
ghost use Rattle.folders.specs.declared.faults.PublishFault.{PublishFault};
ghost use Rattle.folders.specs.Folder.{Only, Stays, IsSettled, texts_of};
ghost use Rattle.folders.specs.Publishing.{Replaces, HasOnly};
ghost use Rattle.archive_keepers.specs.Names.{kept_name, draft_name};

use crate::collection_text::CollectionText;
use crate::drafts::clear_drafts;
use crate::names::{draft_name as draft_of, kept_name as name_of};
use archive_table::{KeepFault, Keeper};
use folders::{CallFault, Folder, PublishFault, publish};
use std::alloc::Allocator;
use tws_best::Collection;
use tws_file::Ruleset;

/// A keeper that has the collection of each ruleset in a file of a folder. It has no ghost calls: its clauses say what a
/// call makes of the folder.
///
/// Once it is unknown whether a collection was kept, the keeper is no longer usable: every later call of `keep` returns
/// `Device`. A server then has to end, since after a restart the new collection may be loaded or the last one.
#[derive(Drop)]
pub struct FolderKeeper<F: Folder> {
    folder: F,
    failures: u64,
    is_usable: bool,
}

impl<F: Folder> FolderKeeper<F> {
    /// Returns a keeper over this folder. It makes no call of the folder.
    pub fn new(folder: F) -> Self
        ensures folder { result.folder ≡ folder }
        ensures failures { result.failures ≡ 0 }
        ensures usable { result.is_usable ≡ true }
    {
        FolderKeeper {
            folder,
            failures: 0,
            is_usable: true,
        }
    }

    /// Whether the outcome of every call of `keep` so far is known.
    pub fn is_usable(&self) -> bool
        ensures { result ≡ self.now.is_usable }
    {
        self.is_usable
    }

    /// The folder.
    pub fn folder(&self) -> &F
        ensures { result.now ≡ self.now.folder }
    {
        &self.folder
    }

    /// Gives the folder back.
    pub fn into_folder(self) -> F
        ensures { result ≡ self.folder }
    {
        let FolderKeeper { folder, .. } = self;
        folder
    }

    /// Removes the drafts that are there, as a server that was killed leaves them. Each is then created and removed once
    /// more, so that this fails where nothing can be kept. The collections stay, and the folder is synced: a collection that
    /// was renamed before the last server was killed is then as durable as one that it acknowledged.
    ///
    /// # Errors
    ///
    /// Those of the folder: `Device` if it cannot be written to, or not synced. Then a draft may be left.
    pub fn clear_drafts(&mut self) -> Result<(), KeepFault>
        ensures cleared { F.has_model ≡ true → OnOk result ((rules : Ruleset) → Only None (F.model.reads self.new.folder (draft_name rules))) }
        ensures kept { F.has_model ≡ true → (rules : Ruleset) → Stays F.model self.old.folder self.new.folder (kept_name rules) }
        // Then a crash leaves of each collection what could be read before, as its file holds it.
        ensures settled { F.has_model ≡ true → OnOk result ((rules : Ruleset) (left : Option (List ℕ)) → F.model.leaves self.new.folder (kept_name rules) left → IsSettled (F.model.reads self.old.folder (kept_name rules)) (F.model.holds self.old.folder (kept_name rules)) left) }
        ensures usable { self.new.is_usable ≡ self.old.is_usable }
        // It fails only if a call of the folder has failed.
        ensures fault { OnErr result (Rises (F.faults self.old.folder) (F.faults self.new.folder)) }
        ensures more { self.old.failures ≤ self.new.failures }
        ensures failed { result ≡ Err KeepFault.Device → Rises self.old.failures self.new.failures }
        ensures steady { result ≢ Err KeepFault.Device → self.new.failures ≡ self.old.failures }
    {
        match clear_drafts(&mut self.folder) {
            Ok(()) => Ok(()),
            Err(fault) => Err(self.note_call(fault)),
        }
    }

    // Counts a failure of the device.
    fn count_failure(&mut self, fault: KeepFault)
        ensures folder { self.new.folder ≡ self.old.folder }
        ensures usable { self.new.is_usable ≡ self.old.is_usable }
        ensures more { self.old.failures ≤ self.new.failures }
        ensures device { fault ≡ KeepFault.Device → Rises self.old.failures self.new.failures }
        ensures steady { fault ≢ KeepFault.Device → self.new.failures ≡ self.old.failures }
    {
        if fault == KeepFault::Device && self.failures < u64::MAX {
            self.failures += 1;
        }
    }

    // Notes why a call of the folder failed. Returns the fault that the server gets.
    fn note_call(&mut self, fault: CallFault) -> KeepFault
        ensures folder { self.new.folder ≡ self.old.folder }
        ensures usable { self.new.is_usable ≡ self.old.is_usable }
        ensures more { self.old.failures ≤ self.new.failures }
        ensures device { result ≡ KeepFault.Device → Rises self.old.failures self.new.failures }
        ensures steady { result ≢ KeepFault.Device → self.new.failures ≡ self.old.failures }
    {
        let fault = match fault {
            CallFault::Device => KeepFault::Device,
            CallFault::Memory => KeepFault::Memory,
        };
        self.count_failure(fault);
        fault
    }

    // The same if a collection was not kept.
    fn note(&mut self, fault: PublishFault) -> KeepFault
        ensures folder { self.new.folder ≡ self.old.folder }
        ensures known { self.new.is_usable ≡ true → (failed : CallFailed) × (fault ≡ PublishFault.NotKept failed) }
        ensures goes_on { (failed : CallFailed) → fault ≡ PublishFault.NotKept failed → self.new.is_usable ≡ self.old.is_usable }
        ensures usable { self.new.is_usable ≡ true → self.old.is_usable ≡ true }
        ensures more { self.old.failures ≤ self.new.failures }
        ensures device { result ≡ KeepFault.Device → Rises self.old.failures self.new.failures }
        ensures steady { result ≢ KeepFault.Device → self.new.failures ≡ self.old.failures }
    {
        match fault {
            PublishFault::NotKept(failed) => self.note_call(failed.fault),
            PublishFault::Rename => self.give_up(),
            PublishFault::SyncFolder => self.give_up(),
        }
    }

    // From now on it is not known what the folder has.
    fn give_up(&mut self) -> KeepFault
        ensures fault { result ≡ KeepFault.Device }
        ensures folder { self.new.folder ≡ self.old.folder }
        ensures usable { self.new.is_usable ≡ false }
        ensures more { self.old.failures ≤ self.new.failures }
        ensures rises { Rises self.old.failures self.new.failures }
    {
        self.is_usable = false;
        self.count_failure(KeepFault::Device);
        KeepFault::Device
    }
}

impl<F: Folder> Keeper for FolderKeeper<F> {
    ghost calls = { λ _. None };

    ghost failed = { λ k. k.failures };

    fn keep<A: Allocator>(
        &mut self,
        ruleset: Ruleset,
        collection: &Collection<A>,
    ) -> Result<(), KeepFault>
        // From then on a crash leaves the new collection and nothing else.
        ensures kept { F.has_model ≡ true → OnOk result (HasOnly F.model self.new.folder (kept_name «ruleset») (collection_text collection.now)) }
        // A crash at any moment of the call leaves what was possible before, or the new collection.
        ensures any_moment { F.has_model ≡ true → Replaces F.model self.old.folder self.new.folder (kept_name «ruleset») (collection_text collection.now) }
        // If the keeper is still usable, nothing was kept.
        ensures not_kept { F.has_model ≡ true → OnErr result (self.new.is_usable ≡ true → Stays F.model self.old.folder self.new.folder (kept_name «ruleset»)) }
        ensures others { F.has_model ≡ true → (other : List ℕ) → other ≢ kept_name «ruleset» → other ≢ draft_name «ruleset» → Stays F.model self.old.folder self.new.folder other }
        ensures usable { OnOk result (self.old.is_usable ≡ true) }
        ensures still_usable { OnOk result (self.new.is_usable ≡ true) }
        // Once it is unknown whether a collection was kept, nothing is kept any more.
        ensures unusable { self.old.is_usable ≡ false → result ≡ Err KeepFault.Device }
        ensures untouched { self.old.is_usable ≡ false → self.new.folder ≡ self.old.folder }
        ensures for_good { self.old.is_usable ≡ false → self.new.is_usable ≡ false }
        // It fails only if a call of the folder has failed.
        ensures fault { self.old.is_usable ≡ true → OnErr result (Rises (F.faults self.old.folder) (F.faults self.new.folder)) }
        ensures more { self.old.failures ≤ self.new.failures }
        ensures failed { result ≡ Err KeepFault.Device → Rises self.old.failures self.new.failures }
        ensures steady { result ≢ Err KeepFault.Device → self.new.failures ≡ self.old.failures }
    {
        if !self.is_usable {
            self.count_failure(KeepFault::Device);
            return Err(KeepFault::Device);
        }
        let text = CollectionText { collection };
        match publish(&mut self.folder, draft_of(ruleset), name_of(ruleset), &text) {
            Ok(()) => Ok(()),
            Err(fault) => Err(self.note(fault)),
        }
    }

    fn load<A: Allocator>(
        &mut self,
        alloc: A,
        ruleset: Ruleset,
    ) -> Result<Option<Vec<u8, A>>, KeepFault>
        // What a read of the collection's file may give, so `None` only if there may be no file.
        ensures found { F.has_model ≡ true → IfOk result (λ found. F.model.reads self.old.folder (kept_name «ruleset») (texts_of found)) }
        ensures all { F.has_model ≡ true → (other : List ℕ) → Stays F.model self.old.folder self.new.folder other }
        ensures usable { self.new.is_usable ≡ self.old.is_usable }
        // It fails only if a call of the folder has failed.
        ensures fault { OnErr result (Rises (F.faults self.old.folder) (F.faults self.new.folder)) }
        ensures more { self.old.failures ≤ self.new.failures }
        ensures failed { result ≡ Err KeepFault.Device → Rises self.old.failures self.new.failures }
        ensures steady { result ≢ Err KeepFault.Device → self.new.failures ≡ self.old.failures }
    {
        match self.folder.read(alloc, name_of(ruleset)) {
            Ok(found) => Ok(found),
            Err(fault) => Err(self.note_call(fault)),
        }
    }

    fn failures(&self) -> u64 {
        self.failures
    }
}
