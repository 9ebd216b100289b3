//! The calls of a keeper over a folder.

ghost use Rattle.std.specs.Prelude.{◌≡◌, ℕ, List, Option, true, IfOk, OnOk, OnErr};
ghost use Rattle.tws_file.specs.declared.«ruleset».Ruleset.{Ruleset as Rules};
ghost use Rattle.byte_output.specs.Failures.{Rises};
ghost use Rattle.tws_best.specs.Best.{collection_text};
ghost use Rattle.archive_table.specs.Table.{Maps, map_of};
ghost use Rattle.archive_table.specs.Keeper.{IsLoaded};
ghost use Rattle.folders.specs.Folder.{texts_of};
ghost use Rattle.archive_durable.specs.Crashes.{KeepDoes, StayKept, HasFiles, HasCollections, StartsWith};

use archive_keepers::FolderKeeper;
use archive_table::{KeepFault, Keeper};
use folders::Folder;
use std::alloc::Allocator;
use tws_best::Collection;
use tws_file::Ruleset;

/// Keeps a collection as the keeper does. The contract says what that makes of its folder, as the laws have it.
///
/// # Errors
///
/// Those of the keeper.
pub fn keep<F: Folder, A: Allocator>(
    keeper: &mut FolderKeeper<F>,
    ruleset: Ruleset,
    collection: &Collection<A>,
) -> Result<(), KeepFault>
    ensures does { F.has_model ≡ true →
        KeepDoes F.model keeper.old.folder keeper.new.folder «ruleset» (collection_text collection.now) result keeper.new.is_usable }
    ensures fault { keeper.old.is_usable ≡ true → OnErr result (Rises (F.faults keeper.old.folder) (F.faults keeper.new.folder)) }
{
    keeper.keep(ruleset, collection)
}

/// Clears the drafts as a start does before it loads. If then each read gives one text of a collection, which its file holds, a
/// crash leaves what is read.
///
/// # Errors
///
/// Those of the keeper.
pub fn clear_drafts<F: Folder>(keeper: &mut FolderKeeper<F>) -> Result<(), KeepFault>
    ensures starts { F.has_model ≡ true → (text : Rules → Option (List ℕ)) → HasFiles F.model keeper.old.folder text →
        OnOk result (StartsWith F.model keeper.new.folder text) }
    ensures stay { F.has_model ≡ true → StayKept F.model keeper.old.folder keeper.new.folder }
    ensures fault { OnErr result (Rises (F.faults keeper.old.folder) (F.faults keeper.new.folder)) }
{
    keeper.clear_drafts()
}

/// Loads a collection as the keeper does: if the folder has these collections, what it loads is the one of its ruleset.
///
/// # Errors
///
/// Those of the keeper.
pub fn load<F: Folder, A: Allocator>(
    keeper: &mut FolderKeeper<F>,
    alloc: A,
    ruleset: Ruleset,
) -> Result<Option<Vec<u8, A>>, KeepFault>
    ensures found { F.has_model ≡ true → (maps : Maps) → HasCollections F.model keeper.old.folder maps →
        IfOk result (λ found. IsLoaded «ruleset» (texts_of found) (map_of «ruleset» maps)) }
    ensures stay { F.has_model ≡ true → StayKept F.model keeper.old.folder keeper.new.folder }
    ensures fault { OnErr result (Rises (F.faults keeper.old.folder) (F.faults keeper.new.folder)) }
{
    keeper.load(alloc, ruleset)
}
