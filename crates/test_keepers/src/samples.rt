//! The collections that the tests keep.

// Folders and collections for the tests.
use archive_keepers::FolderKeeper;
use archive_table::{KeepFault, Keeper};
use folders::MemoryFolder;
use std::test::Fail;
use test_samples::{EMPTY_MS, HUNDRED, NINETY};
use tws_best::Collection;
use tws_file::Ruleset;
use tws_reader::read_file;

// The Lynx collection of a file.
pub(crate) fn collection(rt: HostRuntime, text: &[u8]) -> Result<Collection, Fail> {
    let file = read_file(rt.alloc(), text)?;
    Ok(Collection::load(rt.alloc(), &file)?)
}

// Keeps the Lynx collection of a file. Returns the keeper's result.
pub(crate) fn keep<K: Keeper>(
    rt: HostRuntime,
    keeper: &mut K,
    text: &[u8],
) -> Result<Result<(), KeepFault>, Fail> {
    let collection = collection(rt, text)?;
    Ok(keeper.keep(Ruleset::Lynx, &collection))
}

fn keep_empty(rt: HostRuntime, keeper: &mut FolderKeeper<MemoryFolder>) -> Result<(), KeepFault> {
    keeper.keep(Ruleset::Ms, &Collection::new(rt.alloc(), Ruleset::Ms))
}

fn keep_both(rt: HostRuntime, keeper: &mut FolderKeeper<MemoryFolder>) -> Result<(), Fail> {
    keep(rt, keeper, HUNDRED)??;
    keep_empty(rt, keeper)?;
    Ok(())
}

// A folder in which both collections were kept, the Lynx one as HUNDRED.
pub(crate) fn folder(rt: HostRuntime) -> Result<MemoryFolder, Fail> {
    let mut keeper = FolderKeeper::new(MemoryFolder::new(rt.alloc()));
    keep_both(rt, &mut keeper)?;
    Ok(keeper.into_folder())
}

fn same(text: &[u8], wanted: &[u8]) -> bool {
    text == wanted
}

// Which text this is: 1 for HUNDRED, 2 for NINETY, 3 for another.
fn number_of(text: &[u8]) -> u8 {
    if same(text, HUNDRED) {
        1
    } else if same(text, NINETY) {
        2
    } else {
        3
    }
}

// Which text a keeper loads, 0 if none.
pub(crate) fn loaded<K: Keeper>(rt: HostRuntime, keeper: &mut K) -> Result<u8, KeepFault> {
    match keeper.load(rt.alloc(), Ruleset::Lynx)? {
        Some(text) => Ok(number_of(&text)),
        None => Ok(0),
    }
}

// Whether a keeper loads the MS collection that was kept.
pub(crate) fn loads_ms<K: Keeper>(rt: HostRuntime, keeper: &mut K) -> Result<bool, KeepFault> {
    match keeper.load(rt.alloc(), Ruleset::Ms)? {
        Some(text) => Ok(same(&text, EMPTY_MS)),
        None => Ok(false),
    }
}
