//! A crash at each call of a keep.

// Each call of a keep fails in turn, with every later one, and then the program stops.
use crate::samples::*;
use archive_keepers::FolderKeeper;
use archive_table::{KeepFault, Keeper};
use folders::MemoryFolder;
use std::test::Fail;
use test_samples::NINETY;
use tws_file::Ruleset;

type MemoryKeeper = FolderKeeper<MemoryFolder>;

// What became of a keep: what the keeper returned, and whether it is still usable.
type Kept = (Result<(), KeepFault>, bool);

const KEPT: Kept = (Ok(()), true);

const NOT_KEPT: Kept = (Err(KeepFault::Device), true);

const UNKNOWN: Kept = (Err(KeepFault::Device), false);

// A keeper over a folder that has HUNDRED, and lets this many calls pass.
fn failing(rt: HostRuntime, calls: u64) -> Result<MemoryKeeper, Fail> {
    let mut folder = folder(rt)?;
    folder.fail_after(calls);
    Ok(FolderKeeper::new(folder))
}

// Keeps NINETY.
fn keep_ninety(rt: HostRuntime, keeper: &mut MemoryKeeper) -> Result<Kept, Fail> {
    let result = keep(rt, keeper, NINETY)?;
    Ok((result, keeper.is_usable()))
}

// Keeps NINETY over HUNDRED with this many calls. Returns what became of it, and the folder.
fn keep_with(rt: HostRuntime, calls: u64) -> Result<(Kept, MemoryFolder), Fail> {
    let mut keeper = failing(rt, calls)?;
    let kept = keep_ninety(rt, &mut keeper)?;
    Ok((kept, keeper.into_folder()))
}

// Which text a keeper loads that also has the MS collection.
fn loaded_beside_ms(rt: HostRuntime, keeper: &mut MemoryKeeper) -> Result<u8, Fail> {
    if loads_ms(rt, keeper)? {
        Ok(loaded(rt, keeper)?)
    } else {
        Err(Fail::new("the other collection has changed"))
    }
}

// Which text is loaded after a crash at that moment.
fn left(rt: HostRuntime, folder: MemoryFolder, are_names_lost: bool) -> Result<u8, Fail> {
    let mut keeper = FolderKeeper::new(folder.after_crash(are_names_lost)?);
    loaded_beside_ms(rt, &mut keeper)
}

// The result of a keep with this many calls, and which text is loaded afterwards: if the changes of names are lost, and
// if they are not.
fn outcome(rt: HostRuntime, calls: u64) -> Result<(Kept, u8, u8), Fail> {
    let (result, folder) = keep_with(rt, calls)?;
    let lost = left(rt, folder, true)?;
    let (_, folder) = keep_with(rt, calls)?;
    Ok((result, lost, left(rt, folder, false)?))
}

// The calls are: remove the draft, create it, sync it, rename it, sync the folder.
#[test]
fn a_crash_at_each_call(rt: HostRuntime) -> Result<(), Fail> {
    for (calls, left) in [
        (0, (NOT_KEPT, 1, 1)),
        (1, (NOT_KEPT, 1, 1)),
        (2, (NOT_KEPT, 1, 1)),
        (3, (UNKNOWN, 1, 1)),
        (4, (UNKNOWN, 1, 2)),
        (5, (KEPT, 2, 2)),
    ] {
        assert_eq!(rt; outcome(rt, calls)?, left);
    }
    Ok(())
}

// The results of two keeps, whether the keeper is usable after the first, and how many calls failed.
fn keep_twice(
    rt: HostRuntime,
    keeper: &mut MemoryKeeper,
) -> Result<([Result<(), KeepFault>; 2], bool, u64), Fail> {
    let first = keep(rt, keeper, NINETY)?;
    let usable = keeper.is_usable();
    let second = keep(rt, keeper, NINETY)?;
    Ok(([first, second], usable, keeper.failures()))
}

// The same in a folder whose fifth call fails.
fn kept_twice(rt: HostRuntime) -> Result<([Result<(), KeepFault>; 2], bool, u64), Fail> {
    let mut keeper = failing(rt, 4)?;
    keep_twice(rt, &mut keeper)
}

// The folder's sync fails. Then the keeper is not usable, and the next keep fails at once.
#[test]
fn an_unknown_outcome_ends_the_keeper(rt: HostRuntime) -> Result<(), Fail> {
    assert_eq!(rt; kept_twice(rt)?, ([Err(KeepFault::Device); 2], false, 2));
    Ok(())
}

fn fails_to_load(rt: HostRuntime, keeper: &mut MemoryKeeper) -> bool {
    matches!(
        keeper.load(rt.alloc(), Ruleset::Lynx),
        Err(KeepFault::Device)
    )
}

// A keeper after a keep and a load: whether both failed, whether it is usable, and how many calls failed.
fn keep_and_load(
    rt: HostRuntime,
    keeper: &mut MemoryKeeper,
) -> Result<(bool, bool, bool, u64), Fail> {
    let kept = keep(rt, keeper, NINETY)?;
    let has_failed = kept == Err(KeepFault::Device);
    let is_unloaded = fails_to_load(rt, keeper);
    Ok((
        has_failed,
        is_unloaded,
        keeper.is_usable(),
        keeper.failures(),
    ))
}

// The same of a folder that fails at once.
fn fails_at_both(rt: HostRuntime) -> Result<(bool, bool, bool, u64), Fail> {
    let mut keeper = failing(rt, 0)?;
    keep_and_load(rt, &mut keeper)
}

#[test]
fn a_folder_that_fails(rt: HostRuntime) -> Result<(), Fail> {
    assert_eq!(rt; fails_at_both(rt)?, (true, true, true, 2));
    Ok(())
}

// What a keeper loads before a keep of NINETY and after it.
fn load_around(rt: HostRuntime, keeper: &mut MemoryKeeper) -> Result<(u8, u8), Fail> {
    let before = loaded(rt, keeper)?;
    keep(rt, keeper, NINETY)??;
    Ok((before, loaded(rt, keeper)?))
}

// The same of a new keeper over this folder.
fn loaded_around(rt: HostRuntime, folder: MemoryFolder) -> Result<(u8, u8), Fail> {
    let mut keeper = FolderKeeper::new(folder);
    load_around(rt, &mut keeper)
}

// A crash leaves a draft. It is not loaded, and the next keep replaces it. From an empty folder nothing is loaded.
#[test]
fn a_draft_that_is_left(rt: HostRuntime) -> Result<(), Fail> {
    let (_, folder) = keep_with(rt, 3)?;
    let left = folder.after_crash(false)?;
    assert_eq!(rt; loaded_around(rt, left)?, (1, 2));
    assert_eq!(rt; loaded_around(rt, MemoryFolder::new(rt.alloc()))?, (0, 2));
    Ok(())
}
