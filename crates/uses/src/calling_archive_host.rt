//! A caller of `archive_host`.

use archive_host::DirKeeper;
use archive_table::Keeper;
use std::alloc::Global;
use std::fs::File;
use std::rt::Files;
use std::time::Clock;
use tws_file::Ruleset;

/// The collection of this ruleset that the folder of this name keeps, if it keeps one.
pub fn kept_in<P: Files<File = File> + Clock + AllocGlobal + Copy>(
    rt: P,
    alloc: Global,
    name: &str,
    ruleset: Ruleset,
) -> Option<Vec<u8>> {
    let mut keeper = DirKeeper::open(rt, name).ok()?;
    let kept = keeper.load(alloc, ruleset).ok()?;
    drop(keeper);
    kept
}
