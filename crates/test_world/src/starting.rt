//! Runs that begin with what the keeper has.

use crate::scene::{Act, NOTHING, Wanted, events_of, other_part, was_given};
use archive_memory::MemoryKeeper;
use archive_table::{KeepFault, LoadFault};
use archive_world::{ReplayFault, SERVER, WorldFault, replay_from};
use std::alloc::Global;
use std::test::Fail;
use test_samples::{
    ACK_0, ACK_1, ALICE, DATA_HUNDRED, EMPTY_MS, HUNDRED, NINETY, PEER, UNREADABLE, WRQ,
};

// A file with both solutions, in 100 and in 90 ticks: no text of a collection, and loaded as the better one.
const BOTH: &[u8; 48] =
    b"\x35\x33\x9B\x99\x01\0\0\0\x10\0\0\0\x01\0BDHP\0\0\0\0\0\0\x64\0\0\0\x10\0\0\0\x01\0BDHP\0\0\0\0\0\0\x5A\0\0\0";

// A keeper that has this text for Lynx.
fn keeper_with(alloc: Global, text: &[u8]) -> Result<MemoryKeeper, Fail> {
    let text = Vec::from_slice(alloc, text)?;
    Ok(MemoryKeeper::with(alloc, Some(text), None)?)
}

// Why these events have no run from what this keeper has, if they have none.
fn fault_from(
    alloc: Global,
    keeper: &mut MemoryKeeper,
    acts: &[Act<'_>],
) -> Result<Option<ReplayFault>, Fail> {
    match replay_from(alloc, keeper, &events_of(alloc, acts)?) {
        Ok(_outcome) => Ok(None),
        Err(fault) => Ok(Some(fault)),
    }
}

// What the keeper has is the first file taken. A put that is no better changes nothing, nor does a restart.
#[test]
fn a_start_with_a_file(rt: HostRuntime) -> Result<(), Fail> {
    const ACTS: &[Act<'static>] = &[
        Act::Put(ALICE, HUNDRED),
        Act::Ask(0, 4000),
        Act::Deliver(1),
        Act::Deliver(2),
        Act::Deliver(3),
        Act::Restart,
    ];
    const WANTED: Wanted<'static> = Wanted {
        taken: &[(SERVER, BOTH), (ALICE, HUNDRED)],
        sent: &[ALICE],
        opened: &[(ALICE, 4000, 1)],
        lynx: NINETY,
        datagrams: &[
            (ALICE, SERVER, WRQ),
            (PEER, ALICE, ACK_0),
            (ALICE, PEER, DATA_HUNDRED),
            (PEER, ALICE, ACK_1),
        ],
        ..NOTHING
    };
    let mut keeper = keeper_with(rt.alloc(), BOTH)?;
    let outcome = replay_from(rt.alloc(), &mut keeper, &events_of(rt.alloc(), ACTS)?)?;
    assert_eq!(rt;
        (
            other_part(&outcome, &WANTED),
            was_given(&keeper, &[(BOTH, true)])
        ),
        (None, true)
    );
    Ok(())
}

// The fault of a restart if this call of the keeper fails.
fn fault_at(alloc: Global, call: u64) -> Result<Option<ReplayFault>, Fail> {
    let mut keeper = MemoryKeeper::new(alloc);
    keeper.fail_at(call);
    fault_from(alloc, &mut keeper, &[Act::Restart])
}

// The load of Lynx fails, or that of MS; or that of the restart.
#[test]
fn starts_with_a_keeper_that_fails(rt: HostRuntime) -> Result<(), Fail> {
    const DEVICE: Option<ReplayFault> = Some(ReplayFault::NotStarted(LoadFault::Keep(
        KeepFault::Device,
    )));
    let faults = (
        fault_at(rt.alloc(), 1)?,
        fault_at(rt.alloc(), 2)?,
        fault_at(rt.alloc(), 3)?,
    );
    let ended = Some(ReplayFault::Ended(WorldFault::NotLoaded(0)));
    assert_eq!(rt; faults, (DEVICE, DEVICE, ended));
    Ok(())
}

// A file of the other ruleset, and bytes that are no file.
#[test]
fn starts_with_bytes_that_are_no_collection(rt: HostRuntime) -> Result<(), Fail> {
    let alloc = rt.alloc();
    let other = fault_from(alloc, &mut keeper_with(alloc, EMPTY_MS)?, &[])?;
    let none = fault_from(alloc, &mut keeper_with(alloc, UNREADABLE)?, &[])?;
    let is_unreadable = matches!(
        none,
        Some(ReplayFault::NotStarted(LoadFault::Unreadable(_)))
    );
    assert_eq!(rt;
        (other, is_unreadable),
        (Some(ReplayFault::NotStarted(LoadFault::WrongRuleset)), true)
    );
    Ok(())
}
