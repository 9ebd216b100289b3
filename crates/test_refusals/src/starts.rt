//! Replays that begin with what their keeper has, whose requests for memory are refused.

use crate::answers::keeps_file;
use archive_memory::MemoryKeeper;
use archive_table::{KeepFault, LoadFault};
use archive_world::{Event, Outcome as Left, ReplayFault, SERVER, WorldFault, replay_from};
use refusing::{Outcome, Refusing, refuse_each};
use std::alloc::{Allocator, Global};
use test_samples::{EMPTY_MS, HUNDRED};

// Whether the file is the only one taken, and the server has it and nothing else.
fn has_file<A: Allocator>(left: &Left<A>) -> bool {
    let has_texts = left.lynx.as_slice() == HUNDRED.as_slice()
        && left.ms.as_slice() == EMPTY_MS.as_slice();
    match left.taken.as_slice() {
        [one] => has_texts && one.peer == SERVER && one.file.as_slice() == HUNDRED.as_slice(),
        _ => false,
    }
}

fn is_memory(fault: ReplayFault) -> bool {
    matches!(
        fault,
        ReplayFault::NotStarted(LoadFault::Memory | LoadFault::Keep(KeepFault::Memory))
            | ReplayFault::Ended(WorldFault::Memory)
    )
}

// The keeper has ample memory, and what is loaded from it does not.
fn start(refusing: &Refusing<Global>) -> Outcome {
    let global = refusing.inner;
    let Ok(text) = Vec::from_slice(global, HUNDRED) else {
        return Outcome::Wrong;
    };
    let Ok(mut keeper) = MemoryKeeper::with(global, Some(text), None) else {
        return Outcome::Wrong;
    };
    let events: Vec<Event<_>, _> = Vec::new(refusing);
    let result = replay_from(refusing, &mut keeper, &events);
    let is_kept = keeps_file(&keeper);
    match result {
        Ok(left) => Outcome::of(is_kept && has_file(&left)),
        Err(fault) => Outcome::refused(is_kept && is_memory(fault)),
    }
}

#[test]
fn a_start_with_a_file(rt: HostRuntime) {
    assert_eq!(rt; refuse_each(rt.alloc(), 2, &start), Ok(()));
}
