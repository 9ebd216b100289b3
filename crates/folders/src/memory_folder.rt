//! A folder in memory.

ghost use Rattle.std.specs.Prelude.{◌≡◌, ◌≤◌, ◌∷◌, [], ℕ, List, true, false, None, Some, IsErr, IfOk, OnOk, OnErr, reverse, option_copied};
ghost use Rattle.byte_output.specs.Failures.{Rises};
ghost use Rattle.folders.specs.Folder.{Stays};
ghost use Rattle.folders.specs.Memory.{latest};

use crate::faults::{CallFault, RenameFault};
use crate::folder::Folder;
use std::alloc::{AllocError, Allocator, Global};
use std::io;

// What a call has done.
#[derive(Drop)]
pub(crate) enum FolderChange {
    // There is a file with this text under this name.
    Put {
        name: String,
        text: Vec<u8>,
    },
    // There is none.
    Removed {
        name: String,
    },
    // The file with this text has another name.
    Renamed {
        from: String,
        to: String,
        text: Vec<u8>,
    },
    // The names are on the disk.
    Synced,
}

/// A folder in memory, for tests, as the list of all changes to it. A file has its text once it was synced. A
/// crash leaves of each name what it was when the folder was synced, or what it is now. From a call on, all calls may
/// fail, without an effect.
#[derive(Drop)]
pub struct MemoryFolder {
    alloc: Global,
    changes: Vec<FolderChange>,
    /// How many more calls do not fail.
    left: u64,
    faults: u64,
}

impl FolderChange {
    ghost use Rattle.folders.specs.Memory.{touches, text_at, is_synced};

    // Whether it says what a name has.
    fn is_of(&self, name: &str) -> bool
        ensures { result ≡ touches name.now self.now }
    {
        match self {
            FolderChange::Put { name: put, .. } => put.as_str() == name,
            FolderChange::Removed { name: removed } => removed.as_str() == name,
            FolderChange::Renamed { from, to, .. } => from.as_str() == name || to.as_str() == name,
            FolderChange::Synced => false,
        }
    }

    // What it says that a name has.
    fn text_at(&self, name: &str) -> Option<&[u8]>
        ensures { option_copied result ≡ text_at name.now self.now }
    {
        match self {
            FolderChange::Put { text, .. } => Some(text.as_slice()),
            FolderChange::Removed { .. } => None,
            FolderChange::Renamed { to, text, .. } => {
                if to.as_str() == name {
                    Some(text.as_slice())
                } else {
                    None
                }
            }
            FolderChange::Synced => None,
        }
    }

    // Whether it puts the names on the disk.
    fn is_synced(&self) -> bool
        ensures { result ≡ is_synced self.now }
    {
        matches!(self, FolderChange::Synced)
    }
}

// The last change of a name.
fn latest_of<'a>(changes: &'a [FolderChange], name: &str) -> Option<&'a FolderChange>
    ensures { option_copied result ≡ latest name.now (reverse changes.now) }
{
    changes.iter().rev().find(|change| change.is_of(name))
}

impl MemoryFolder {
    ghost use Rattle.folders.specs.Memory.{newest, file, disk, touches, is_synced, memory_model};

    /// An empty folder. Does not allocate.
    pub fn new(alloc: Global) -> Self
        ensures empty { newest result ≡ [] }
        ensures faults { result.faults ≡ 0 }
    {
        MemoryFolder {
            alloc,
            changes: Vec::new(alloc),
            left: u64::MAX,
            faults: 0,
        }
    }

    /// Lets `left` more calls pass. All later ones fail.
    pub fn fail_after(&mut self, left: u64)
        ensures left { self.new.left ≡ left }
        ensures changes { self.new.changes ≡ self.old.changes }
    {
        self.left = left;
    }

    /// The text of the file under a name, if there is one.
    pub fn file(&self, name: &str) -> Option<&[u8]>
        ensures { option_copied result ≡ file (newest self.now) name.now }
    {
        match latest_of(self.changes.as_slice(), name) {
            Some(change) => change.text_at(name),
            None => None,
        }
    }

    // Forgets the changes since the last sync of the folder.
    fn lose_names(&mut self)
        ensures { newest self.new ≡ disk (newest self.old) }
    {
        for popped in 0..self.changes.len() {
            match self.changes.pop() {
                Some(change) => {
                    if change.is_synced() {
                        return;
                    }
                }
                None => return,
            }
        }
    }

    /// The folder that a crash leaves. The names are as they were when the folder was synced if later changes are lost,
    /// and else as they are now. From then on no call has to fail.
    ///
    /// # Errors
    ///
    /// Out of memory.
    pub fn after_crash(self, are_names_lost: bool) -> Result<Self, AllocError>
        ensures lost { are_names_lost ≡ true → IfOk result (λ after. (name : List ℕ) → file (newest after) name ≡ file (disk (newest self)) name) }
        ensures kept { are_names_lost ≡ false → IfOk result (λ after. (name : List ℕ) → file (newest after) name ≡ file (newest self) name) }
        ensures left { IfOk result (λ after. (name : List ℕ) → memory_model.leaves self name (file (newest after) name)) }
        ensures disk { IfOk result (λ after. (name : List ℕ) → file (disk (newest after)) name ≡ file (newest after) name) }
    {
        let mut after = self;
        after.left = u64::MAX;
        if are_names_lost {
            after.lose_names();
        }
        after.changes.push(FolderChange::Synced)?;
        Ok(after)
    }

    // The fault of a call.
    fn fail(&mut self, fault: CallFault) -> CallFault
        ensures fault { result ≡ fault }
        ensures changes { self.new.changes ≡ self.old.changes }
        ensures stays { (other : List ℕ) → Stays memory_model self.old self.new other }
        ensures more { self.old.faults ≤ self.new.faults }
        ensures rises { Rises self.old.faults self.new.faults }
    {
        self.faults = self.faults.saturating_add(1);
        fault
    }

    // Counts a call. Fails if no more are to pass.
    fn begin(&mut self) -> Result<(), CallFault>
        ensures changes { self.new.changes ≡ self.old.changes }
        ensures stays { (other : List ℕ) → Stays memory_model self.old self.new other }
        ensures out { self.old.left ≡ 0 → IsErr result }
        ensures more { self.old.faults ≤ self.new.faults }
        ensures fault { OnErr result (Rises self.old.faults self.new.faults) }
    {
        if self.left == 0 {
            return Err(self.fail(CallFault::Device));
        }
        self.left -= 1;
        Ok(())
    }

    // Adds a change. On error there is none.
    fn add(&mut self, change: FolderChange) -> Result<(), CallFault>
        ensures ok { OnOk result (newest self.new ≡ change ∷ newest self.old) }
        ensures err { OnErr result (self.new.changes.items ≡ self.old.changes.items) }
        ensures more { self.old.faults ≤ self.new.faults }
        ensures fault { OnErr result (Rises self.old.faults self.new.faults) }
    {
        match self.changes.push(change) {
            Ok(()) => Ok(()),
            Err(_) => Err(self.fail(CallFault::Memory)),
        }
    }

    // Counts a call, and adds what it does.
    fn change(&mut self, change: FolderChange) -> Result<(), CallFault>
        ensures ok { OnOk result (newest self.new ≡ change ∷ newest self.old) }
        ensures err { OnErr result ((other : List ℕ) → Stays memory_model self.old self.new other) }
        ensures others { is_synced change ≡ false → (other : List ℕ) → touches other change ≡ false → Stays memory_model self.old self.new other }
        ensures synced { change ≡ FolderChange.Synced → (other : List ℕ) → Stays memory_model self.old self.new other }
        ensures more { self.old.faults ≤ self.new.faults }
        ensures fault { OnErr result (Rises self.old.faults self.new.faults) }
    {
        self.begin()?;
        self.add(change)
    }

    // The text of a file that is to be renamed.
    fn copy_of(&self, name: &str) -> Result<Vec<u8>, RenameFault>
        ensures { IfOk result (λ text. file (newest self.now) name.now ≡ Some text.items) }
    {
        let Some(text) = self.file(name) else {
            return Err(RenameFault::Gone);
        };
        match text.to_vec(self.alloc) {
            Ok(copy) => Ok(copy),
            Err(_) => Err(RenameFault::Unknown),
        }
    }
}

impl Folder for MemoryFolder {
    type File = Vec<u8>;

    ghost use Rattle.folders.specs.Memory.{memory_model};

    ghost has_model = { true };

    ghost model = { memory_model };

    ghost undoes_renames = { true };

    ghost faults = { λ folder. folder.faults };

    fn contains(&mut self, name: &str) -> Result<bool, CallFault> {
        self.begin()?;
        Ok(self.file(name).is_some())
    }

    fn remove(&mut self, name: &str) -> Result<(), CallFault> {
        match String::from_str(self.alloc, name) {
            Ok(name) => self.change(FolderChange::Removed { name }),
            Err(_) => Err(self.fail(CallFault::Memory)),
        }
    }

    fn create_new(&mut self, name: &str, _target: &str) -> Result<Vec<u8>, CallFault> {
        if self.file(name).is_some() {
            return Err(self.fail(CallFault::Device));
        }
        let Ok(name) = String::from_str(self.alloc, name) else {
            return Err(self.fail(CallFault::Memory));
        };
        let text = Vec::new(self.alloc);
        self.change(FolderChange::Put { name, text })?;
        Ok(Vec::new(self.alloc))
    }

    fn abandon(&mut self, _file: Vec<u8>) {
        let _fault = self.fail(CallFault::Device);
    }

    fn sync(&mut self, name: &str, file: Vec<u8>) -> Result<(), CallFault> {
        match String::from_str(self.alloc, name) {
            Ok(name) => self.change(FolderChange::Put { name, text: file }),
            Err(_) => Err(self.fail(CallFault::Memory)),
        }
    }

    fn rename(&mut self, from: &str, to: &str) -> Result<(), RenameFault> {
        let text = match self.copy_of(from) {
            Ok(text) => text,
            Err(fault) => {
                let _fault = self.fail(CallFault::Device);
                return Err(fault);
            }
        };
        let Ok(from) = String::from_str(self.alloc, from) else {
            let _fault = self.fail(CallFault::Memory);
            return Err(RenameFault::Unknown);
        };
        let Ok(to) = String::from_str(self.alloc, to) else {
            let _fault = self.fail(CallFault::Memory);
            return Err(RenameFault::Unknown);
        };
        match self.change(FolderChange::Renamed { from, to, text }) {
            Ok(()) => Ok(()),
            Err(_) => Err(RenameFault::Unknown),
        }
    }

    fn sync_folder(&mut self) -> Result<(), CallFault> {
        self.change(FolderChange::Synced)
    }

    fn read<A: Allocator>(
        &mut self,
        alloc: A,
        name: &str,
    ) -> Result<Option<Vec<u8, A>>, CallFault> {
        self.begin()?;
        let Some(text) = self.file(name) else {
            return Ok(None);
        };
        match text.to_vec(alloc) {
            Ok(copy) => Ok(Some(copy)),
            Err(_) => Err(self.fail(CallFault::Memory)),
        }
    }

    fn last_error(&self) -> Option<io::Error> {
        None
    }
}
