//! A caller of `archive_keepers`.

ghost use Rattle.std.specs.Prelude.{◌≡◌, ◌≤◌, length, OnOk};
ghost use Rattle.tws_best.specs.Best.{collection_text};
ghost use Rattle.tws_file.specs.Text.{File, IsText};
ghost use Rattle.archive_keepers.specs.Readable.{stopping};

use archive_keepers::{FolderKeeper, Limited, Readable};
use archive_table::{KeepFault, Keeper};
use folders::Folder;
use std::alloc::Global;
use tws_best::Collection;

/// Keeps a collection in a folder, and loads it again.
pub fn keep_and_load<F: Folder + Drop>(
    alloc: Global,
    folder: F,
    collection: &Collection,
) -> Result<Option<Vec<u8>>, KeepFault> {
    let mut keeper = FolderKeeper::new(folder);
    keeper.keep(collection.ruleset(), collection)?;
    keeper.load(alloc, collection.ruleset())
}

/// Gives a collection to a keeper, unless its text has more than `limit` bytes.
pub fn keep_within<K: Keeper + Drop>(
    keeper: K,
    limit: u64,
    collection: &Collection,
) -> Result<(), KeepFault>
    ensures { OnOk result (length (collection_text collection.now) ≤ limit) }
{
    let mut keeper = Limited::new(keeper, limit);
    keeper.keep(collection.ruleset(), collection)
}

/// Gives a collection to a keeper that has none yet, unless a solution in it stops Tile World.
pub fn keep_readable<K: Keeper + Drop>(
    alloc: Global,
    keeper: K,
    collection: &Collection,
) -> Result<(), KeepFault>
    ensures { (file : File) → IsText (collection_text collection.now) file → OnOk result (stopping file ≡ 0) }
{
    let mut keeper = Readable::new(keeper, alloc, false);
    keeper.keep(collection.ruleset(), collection)
}
