//! Publishes a file, so that a crash at any moment leaves what was there or the whole new file.

ghost use Rattle.std.specs.Prelude.{◌≡◌, ◌≢◌, ◌⊎◌, ◌≤◌, List, ℕ, true, None, Some, Err, OnOk, OnErr};
ghost use Rattle.byte_output.specs.Failures.{Rises};
ghost use Rattle.folders.specs.declared.faults.CallFailed.{CallFailed};
ghost use Rattle.folders.specs.Folder.{Only, Stays};
ghost use Rattle.folders.specs.Publishing.{Replaces, RisesTwice, HasOnly, IsWritten, IsCleared};

use crate::contents::Contents;
use crate::faults::{CallFailed, CallFault, FolderCall, PublishFault, RenameFault};
use crate::folder::Folder;

// Writes a text to a new file under this name, and syncs it.
fn write_file<F: Folder, C: Contents>(
    folder: &mut F,
    name: &str,
    target: &str,
    contents: &C,
) -> Result<(), CallFailed>
    ensures written { F.has_model ≡ true → OnOk result (IsWritten F.model folder.new name.now (C.text contents.now)) }
    ensures others { F.has_model ≡ true → (other : List ℕ) → other ≢ name.now → Stays F.model folder.old folder.new other }
    ensures more { F.faults folder.old ≤ F.faults folder.new }
    ensures fault { OnErr result (Rises (F.faults folder.old) (F.faults folder.new)) }
{
    let mut file = match folder.create_new(name, target) {
        Ok(file) => file,
        Err(fault) => {
            return Err(CallFailed {
                call: FolderCall::Create,
                fault,
            });
        }
    };
    if contents.write_to(&mut file).is_err() {
        folder.abandon(file);
        return Err(CallFailed {
            call: FolderCall::Write,
            fault: CallFault::Device,
        });
    }
    match folder.sync(name, file) {
        Ok(()) => Ok(()),
        Err(fault) => Err(CallFailed {
            call: FolderCall::Sync,
            fault,
        }),
    }
}

// Writes a draft. If that fails, the draft is removed again.
fn write_draft<F: Folder, C: Contents>(
    folder: &mut F,
    draft: &str,
    target: &str,
    contents: &C,
) -> Result<(), CallFailed>
    ensures written { F.has_model ≡ true → OnOk result (IsWritten F.model folder.new draft.now (C.text contents.now)) }
    ensures others { F.has_model ≡ true → (other : List ℕ) → other ≢ draft.now → Stays F.model folder.old folder.new other }
    ensures cleared { F.has_model ≡ true → OnErr result (IsCleared F.model folder.old folder.new draft.now (F.faults folder.old) (F.faults folder.new)) }
    ensures more { F.faults folder.old ≤ F.faults folder.new }
    ensures fault { OnErr result (Rises (F.faults folder.old) (F.faults folder.new)) }
{
    if let Err(fault) = folder.remove(draft) {
        return Err(CallFailed {
            call: FolderCall::Remove,
            fault,
        });
    }
    let Err(failed) = write_file(folder, draft, target, contents) else {
        return Ok(());
    };
    // What is left of the draft if this fails too is removed by the next draft of that name.
    let _ = folder.remove(draft);
    Err(failed)
}

// Why a file was not published whose draft was not renamed.
fn not_renamed(fault: RenameFault) -> PublishFault
    ensures kept_out { (failed : CallFailed) → result ≡ PublishFault.NotKept failed → fault ≡ RenameFault.Gone }
    ensures unknown { result ≢ PublishFault.SyncFolder }
{
    match fault {
        RenameFault::Gone => PublishFault::NotKept(CallFailed {
            call: FolderCall::Rename,
            fault: CallFault::Device,
        }),
        RenameFault::Unknown => PublishFault::Rename,
    }
}

// Renames a file, and syncs the folder. If the rename fails, the draft is removed.
fn rename_draft<F: Folder>(folder: &mut F, draft: &str, name: &str) -> Result<(), PublishFault>
    requires { draft.now ≢ name.now }
    ensures has { F.has_model ≡ true → OnOk result ((text : List ℕ) → IsWritten F.model folder.old draft.now text → HasOnly F.model folder.new name.now text) }
    ensures unsynced { F.has_model ≡ true → result ≡ Err PublishFault.SyncFolder → (text : List ℕ) → IsWritten F.model folder.old draft.now text → IsWritten F.model folder.new name.now text }
    ensures replaces { F.has_model ≡ true → (text : List ℕ) → IsWritten F.model folder.old draft.now text → Replaces F.model folder.old folder.new name.now text }
    ensures undone { F.has_model ≡ true → F.undoes_renames ≡ true → result ≡ Err PublishFault.Rename → (other : List ℕ) → other ≢ draft.now → Stays F.model folder.old folder.new other }
    ensures not_kept { F.has_model ≡ true → (failed : CallFailed) → result ≡ Err (PublishFault.NotKept failed) → (other : List ℕ) → other ≢ draft.now → Stays F.model folder.old folder.new other }
    ensures cleared { F.has_model ≡ true → (failed : CallFailed) → result ≡ Err (PublishFault.NotKept failed) → RisesTwice (F.faults folder.old) (F.faults folder.new) ⊎ Only None (F.model.reads folder.new draft.now) }
    ensures others { F.has_model ≡ true → (other : List ℕ) → other ≢ draft.now → other ≢ name.now → Stays F.model folder.old folder.new other }
    ensures more { F.faults folder.old ≤ F.faults folder.new }
    ensures fault { OnErr result (Rises (F.faults folder.old) (F.faults folder.new)) }
{
    match folder.rename(draft, name) {
        Ok(()) => {}
        Err(fault) => {
            let _ = folder.remove(draft);
            return Err(not_renamed(fault));
        }
    }
    match folder.sync_folder() {
        Ok(()) => Ok(()),
        Err(_) => Err(PublishFault::SyncFolder),
    }
}

/// Publishes a file under a name, in place of the one that is there: it is written under the name of its draft, synced
/// and renamed, and then the folder is synced.
///
/// # Errors
///
/// `NotKept` if a call before the rename fails, or the draft is gone by then. A draft is then left only if it cannot be
/// removed.
pub fn publish<F: Folder, C: Contents>(
    folder: &mut F,
    draft: &str,
    name: &str,
    contents: &C,
) -> Result<(), PublishFault>
    requires { draft.now ≢ name.now }
    // From then on a crash leaves the new text and nothing else.
    ensures kept { F.has_model ≡ true → OnOk result (HasOnly F.model folder.new name.now (C.text contents.now)) }
    // A crash at any moment of the call leaves what was possible before, or the new text.
    ensures any_moment { F.has_model ≡ true → Replaces F.model folder.old folder.new name.now (C.text contents.now) }
    ensures not_kept { F.has_model ≡ true → (failed : CallFailed) → result ≡ Err (PublishFault.NotKept failed) → (other : List ℕ) → other ≢ draft.now → Stays F.model folder.old folder.new other }
    // The draft is removed again, unless that fails too.
    ensures cleared { F.has_model ≡ true → (failed : CallFailed) → result ≡ Err (PublishFault.NotKept failed) → IsCleared F.model folder.old folder.new draft.now (F.faults folder.old) (F.faults folder.new) }
    ensures undone { F.has_model ≡ true → F.undoes_renames ≡ true → result ≡ Err PublishFault.Rename → (other : List ℕ) → other ≢ draft.now → Stays F.model folder.old folder.new other }
    ensures unsynced { F.has_model ≡ true → result ≡ Err PublishFault.SyncFolder → IsWritten F.model folder.new name.now (C.text contents.now) }
    ensures others { F.has_model ≡ true → (other : List ℕ) → other ≢ draft.now → other ≢ name.now → Stays F.model folder.old folder.new other }
    ensures more { F.faults folder.old ≤ F.faults folder.new }
    // It fails only if a call of the folder has failed.
    ensures fault { OnErr result (Rises (F.faults folder.old) (F.faults folder.new)) }
{
    match write_draft(folder, draft, name, contents) {
        Ok(()) => rename_draft(folder, draft, name),
        Err(failed) => Err(PublishFault::NotKept(failed)),
    }
}

/// Removes a draft that may have been left, makes it anew and removes that: it fails where no draft of this name can be
/// written.
///
/// # Errors
///
/// If a call of the folder fails. Then a draft may be left.
pub fn clear_draft<F: Folder>(folder: &mut F, draft: &str, name: &str) -> Result<(), CallFault>
    ensures gone { F.has_model ≡ true → OnOk result (Only None (F.model.reads folder.new draft.now)) }
    ensures others { F.has_model ≡ true → (other : List ℕ) → other ≢ draft.now → Stays F.model folder.old folder.new other }
    ensures more { F.faults folder.old ≤ F.faults folder.new }
    ensures fault { OnErr result (Rises (F.faults folder.old) (F.faults folder.new)) }
{
    folder.remove(draft)?;
    let file = folder.create_new(draft, name)?;
    folder.sync(draft, file)?;
    folder.remove(draft)
}
