//! Putting a file into the history.

ghost use Rattle.std.specs.Prelude.{◌≡◌, ◌≢◌, ◌≤◌, ℕ, List, true, None, Ok, Err, IfOk, IfErr, OnOk, OnErr, string_bytes};
ghost use Rattle.byte_output.specs.Failures.{Rises};
ghost use Rattle.folders.specs.Folder.{Only, Stays};
ghost use Rattle.folders.specs.Publishing.{HasOnly, IsWritten};
ghost use Rattle.archive_history.specs.History.{AddsNothing, HasCopy, HasNoFreeName, LeavesAll, Records, RecordsForGood, numbered, stem_text};
ghost use Rattle.archive_history.specs.Steps.{IsRecordedAs};
ghost use Rattle.archive_history.specs.Kept.{without_pads};
ghost use Rattle.archive_history.specs.Times.{day_of};

use crate::history_fault::HistoryFault;
use crate::history_folder::HistoryFolder;
use crate::kept_text::KeptText;
use crate::marker::{marked_copy, marker_of};
use crate::names::{draft_of, file_name, numbered as name_with, stem_of};
use crate::record_outcome::RecordOutcome;
use crate::stamp::Stamp;
use folders::{Contents, Folder, FolderCall, PublishFault, publish};
use std::alloc::Allocator;
use tftp_ends::Received;
use tftp_packet::Endpoint;
use tws_file::Ruleset;

/// How many names a file can have.
pub const NAMES: u32 = 100;

// The first name of a file that is not in use.
fn free_name<F: Folder, A: Allocator + Copy>(
    alloc: A,
    folder: &mut F,
    stem: &str,
) -> Result<String<A>, HistoryFault>
    ensures number { IfOk result (λ name. (number : ℕ) × (string_bytes name ≡ numbered stem.now number)) }
    ensures free { F.has_model ≡ true → IfOk result (λ name. F.model.reads folder.old (string_bytes name) None) }
    ensures same { F.has_model ≡ true → (other : List ℕ) → Stays F.model folder.old folder.new other }
    ensures used { F.has_model ≡ true → result ≡ Err HistoryFault.NoFreeName → HasNoFreeName F.model stem.now folder.old }
    ensures more { F.faults folder.old ≤ F.faults folder.new }
    ensures fault { IfErr result (λ e. e ≢ HistoryFault.Memory → e ≢ HistoryFault.NoFreeName → Rises (F.faults folder.old) (F.faults folder.new)) }
    ensures early { IfErr result (λ e. e ≢ HistoryFault.SyncFolder) }
{
    for number in 0..NAMES {
        let name = name_with(alloc, stem, number)?;
        match folder.contains(name.as_str()) {
            Ok(false) => return Ok(name),
            Ok(true) => {}
            Err(_) => return Err(HistoryFault::LookUp),
        }
    }
    Err(HistoryFault::NoFreeName)
}

// The fault of a call after which the file does not have its name.
fn fault_of(call: FolderCall) -> HistoryFault
    ensures early { result ≢ HistoryFault.SyncFolder }
    ensures named { result ≢ HistoryFault.NoFreeName }
{
    match call {
        FolderCall::Remove | FolderCall::Create => HistoryFault::Create,
        FolderCall::Write => HistoryFault::Write,
        FolderCall::Sync => HistoryFault::Sync,
        FolderCall::Rename => HistoryFault::Rename,
    }
}

// Publishes a file under a name.
fn publish_file<F: Folder, C: Contents>(
    folder: &mut F,
    draft: &str,
    name: &str,
    text: &C,
) -> Result<(), HistoryFault>
    requires { draft.now ≢ name.now }
    ensures kept { F.has_model ≡ true → OnOk result (HasOnly F.model folder.new name.now (C.text text.now)) }
    ensures unsynced { F.has_model ≡ true → result ≡ Err HistoryFault.SyncFolder → IsWritten F.model folder.new name.now (C.text text.now) }
    ensures failed { F.has_model ≡ true → F.undoes_renames ≡ true → IfErr result (λ e. e ≢ HistoryFault.SyncFolder → (other : List ℕ) → other ≢ draft.now → Stays F.model folder.old folder.new other) }
    ensures others { F.has_model ≡ true → (other : List ℕ) → other ≢ draft.now → other ≢ name.now → Stays F.model folder.old folder.new other }
    ensures named { IfErr result (λ e. e ≢ HistoryFault.NoFreeName) }
    ensures more { F.faults folder.old ≤ F.faults folder.new }
    ensures fault { OnErr result (Rises (F.faults folder.old) (F.faults folder.new)) }
{
    match publish(folder, draft, name, text) {
        Ok(()) => Ok(()),
        Err(PublishFault::NotKept(failed)) => Err(fault_of(failed.call)),
        Err(PublishFault::Rename) => Err(HistoryFault::Rename),
        Err(PublishFault::SyncFolder) => Err(HistoryFault::SyncFolder),
    }
}

// Puts a text into the history, under the first of the names with this stem that is not in use, which is returned. It is
// written under the name of its draft, synced and renamed, and the folder is synced.
fn record_under<F: Folder, A: Allocator + Copy, C: Contents>(
    alloc: A,
    folder: &mut F,
    stem: &str,
    text: &C,
) -> Result<String<A>, HistoryFault>
    ensures recorded { F.has_model ≡ true → IfOk result (λ name. IsRecordedAs F.model stem.now (string_bytes name) (C.text text.now) folder.old folder.new × Only (Some (C.text text.now)) (F.model.leaves folder.new (string_bytes name))) }
    ensures unsynced { F.has_model ≡ true → result ≡ Err HistoryFault.SyncFolder → (name : List ℕ) × IsRecordedAs F.model stem.now name (C.text text.now) folder.old folder.new }
    ensures failed { F.has_model ≡ true → F.undoes_renames ≡ true → IfErr result (λ e. e ≢ HistoryFault.SyncFolder → AddsNothing F.model folder.old folder.new) }
    ensures full { F.has_model ≡ true → result ≡ Err HistoryFault.NoFreeName → HasNoFreeName F.model stem.now folder.old }
    ensures more { F.faults folder.old ≤ F.faults folder.new }
    ensures fault { IfErr result (λ e. e ≢ HistoryFault.Memory → e ≢ HistoryFault.NoFreeName → Rises (F.faults folder.old) (F.faults folder.new)) }
{
    let name = free_name(alloc, folder, stem)?;
    let draft = draft_of(alloc, name.as_str())?;
    match publish_file(folder, draft.as_str(), name.as_str(), text) {
        Ok(()) => Ok(name),
        Err(fault) => Err(fault),
    }
}

// Whether the copy that a marker of this day names has these bytes.
fn has_copy<F: HistoryFolder, A: Allocator + Copy, C: Contents>(
    alloc: A,
    folder: &mut F,
    day: &str,
    marker: &str,
    text: &C,
) -> bool
    ensures known { F.has_model ≡ true → result ≡ true → HasCopy F.model day.now (C.text text.now) folder.old }
    ensures same { F.has_model ≡ true → LeavesAll F.model folder.old folder.new }
    ensures more { F.faults folder.old ≤ F.faults folder.new }
{
    match marked_copy(alloc, folder, day, marker) {
        Some(copy) => folder.has_text(copy.as_str(), text),
        None => false,
    }
}

// Puts a text into the folder of its day, and a marker beside it, unless the copy that such a marker names has the same bytes.
fn record_once<F: HistoryFolder, A: Allocator + Copy, C: Contents>(
    alloc: A,
    folder: &mut F,
    day: &str,
    stem: &str,
    text: &C,
) -> Result<RecordOutcome, HistoryFault>
    ensures recorded { F.has_model ≡ true → result ≡ Ok RecordOutcome.Added → RecordsForGood F.model day.now stem.now (C.text text.now) folder.old folder.new }
    ensures known { F.has_model ≡ true → result ≡ Ok RecordOutcome.Known → HasCopy F.model day.now (C.text text.now) folder.old × LeavesAll F.model folder.old folder.new }
    ensures unsynced { F.has_model ≡ true → result ≡ Err HistoryFault.SyncFolder → Records F.model day.now stem.now (C.text text.now) folder.old folder.new }
    ensures failed { F.has_model ≡ true → F.undoes_renames ≡ true → IfErr result (λ e. e ≢ HistoryFault.SyncFolder → AddsNothing F.model folder.old folder.new) }
    ensures full { F.has_model ≡ true → result ≡ Err HistoryFault.NoFreeName → HasNoFreeName F.model stem.now folder.old }
    ensures more { F.faults folder.old ≤ F.faults folder.new }
    ensures fault { IfErr result (λ e. e ≢ HistoryFault.Memory → e ≢ HistoryFault.NoFreeName → Rises (F.faults folder.old) (F.faults folder.new)) }
{
    let marker = marker_of(alloc, day, text)?;
    if has_copy(alloc, folder, day, marker.as_str(), text) {
        return Ok(RecordOutcome::Known);
    }
    match record_under(alloc, folder, stem, text) {
        Ok(name) => {
            // Without a marker the same bytes may come to be there twice.
            let _ = folder.write_short(marker.as_str(), file_name(name.as_str()));
            Ok(RecordOutcome::Added)
        }
        Err(fault) => Err(fault),
    }
}

/// Puts a file that was taken from a peer at this time, without its pads, into the folder of its day, which is made if there
/// is none, under the first of its names that is not in use. It is written under the name of its draft, synced and renamed,
/// and the folder is synced; then its marker is written. Nothing is added if a marker leads to a copy from that day with the
/// same bytes. A marker that is lost or leads elsewhere costs a second copy.
///
/// # Errors
///
/// The call of the folder that failed, `NoFreeName`, or `Memory`. After `SyncFolder` the file is in the history, but a
/// crash may lose it. After any other fault it is not, and a draft is left only if it could not be removed.
pub fn record<F: HistoryFolder, A: Allocator + Copy, B: Allocator>(
    alloc: A,
    folder: &mut F,
    time: &Stamp,
    peer: Endpoint,
    ruleset: Ruleset,
    file: &Received<B>,
) -> Result<RecordOutcome, HistoryFault>
    ensures day { OnOk result ((there : F) × F.is_open there (day_of time.now)) }
    ensures recorded { F.has_model ≡ true → result ≡ Ok RecordOutcome.Added → RecordsForGood F.model (day_of time.now) (stem_text time.now peer «ruleset») (without_pads file.now) folder.old folder.new }
    ensures known { F.has_model ≡ true → result ≡ Ok RecordOutcome.Known → HasCopy F.model (day_of time.now) (without_pads file.now) folder.old × LeavesAll F.model folder.old folder.new }
    ensures unsynced { F.has_model ≡ true → result ≡ Err HistoryFault.SyncFolder → Records F.model (day_of time.now) (stem_text time.now peer «ruleset») (without_pads file.now) folder.old folder.new }
    ensures failed { F.has_model ≡ true → F.undoes_renames ≡ true → IfErr result (λ e. e ≢ HistoryFault.SyncFolder → AddsNothing F.model folder.old folder.new) }
    ensures full { F.has_model ≡ true → result ≡ Err HistoryFault.NoFreeName → HasNoFreeName F.model (stem_text time.now peer «ruleset») folder.old }
    ensures more { F.faults folder.old ≤ F.faults folder.new }
    ensures fault { IfErr result (λ e. e ≢ HistoryFault.Memory → e ≢ HistoryFault.NoFreeName → Rises (F.faults folder.old) (F.faults folder.new)) }
{
    let day = time.day(alloc)?;
    let stem = stem_of(alloc, day.as_str(), time, peer, ruleset)?;
    match folder.open_day(day.as_str()) {
        Ok(()) => record_once(
            alloc,
            folder,
            day.as_str(),
            stem.as_str(),
            &KeptText { file },
        ),
        Err(_) => Err(HistoryFault::Day),
    }
}
