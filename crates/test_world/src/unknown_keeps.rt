//! Runs in which it is unknown whether a file was kept.

use crate::scene::{Act, NO_CALL, NOTHING, Wanted, failing, other_after};
use archive_world::{SERVER, WorldFault};
use std::test::Fail;
use test_samples::{ACK_0, ALICE, BOB, DATA_HUNDRED, HUNDRED, NOT_KEPT, PEER, WRQ};

// A put whose outcome is unknown, which the restart finds.
const FOUND: [Act<'static>; 4] = [
    Act::Put(ALICE, HUNDRED),
    Act::Ask(0, 4000),
    Act::Deliver(1),
    Act::UnknownKeep(2, true),
];

// The same, which the restart does not find.
const LOST: [Act<'static>; 4] = [
    Act::Put(ALICE, HUNDRED),
    Act::Ask(0, 4000),
    Act::Deliver(1),
    Act::UnknownKeep(2, false),
];

// The client is told that its file was not kept.
const TOLD: Wanted<'static> = Wanted {
    opened: &[(ALICE, 4000, 0)],
    datagrams: &[
        (ALICE, SERVER, WRQ),
        (PEER, ALICE, ACK_0),
        (ALICE, PEER, DATA_HUNDRED),
        (PEER, ALICE, NOT_KEPT),
    ],
    ..NOTHING
};

// It is taken nevertheless.
#[test]
fn a_keep_that_is_found(rt: HostRuntime) -> Result<(), Fail> {
    const WANTED: Wanted<'static> = Wanted {
        taken: &[(ALICE, HUNDRED)],
        recovered: &[(ALICE, HUNDRED)],
        lynx: HUNDRED,
        given: &[(HUNDRED, true)],
        ..TOLD
    };
    assert_eq!(rt; other_after(rt.alloc(), &FOUND, NO_CALL, &WANTED)?, None);
    Ok(())
}

#[test]
fn a_keep_that_is_lost(rt: HostRuntime) -> Result<(), Fail> {
    assert_eq!(rt; other_after(rt.alloc(), &LOST, NO_CALL, &TOLD)?, None);
    Ok(())
}

// What is to be found is kept by the first call of the keeper, and loaded by the next two.
#[test]
fn keeps_with_a_keeper_that_fails(rt: HostRuntime) -> Result<(), Fail> {
    let unkept = failing(rt.alloc(), 1, &FOUND)?;
    let found = failing(rt.alloc(), 2, &FOUND)?;
    let lost = failing(rt.alloc(), 1, &LOST)?;
    assert_eq!(rt;
        (unkept, found, lost),
        (
            (Some(WorldFault::NotKept(3)), false),
            (Some(WorldFault::NotLoaded(3)), true),
            (Some(WorldFault::NotLoaded(3)), false)
        )
    );
    Ok(())
}

// The second client's file changes nothing, so no keep is asked for.
const REPEATED: [Act<'static>; 8] = [
    Act::Put(ALICE, HUNDRED),
    Act::Ask(0, 4000),
    Act::Deliver(1),
    Act::Deliver(2),
    Act::Put(BOB, HUNDRED),
    Act::Ask(4, 4001),
    Act::Deliver(5),
    Act::UnknownKeep(6, true),
];

#[test]
fn a_keep_of_nothing_new(rt: HostRuntime) -> Result<(), Fail> {
    assert_eq!(rt;
        failing(rt.alloc(), NO_CALL, &REPEATED)?,
        (Some(WorldFault::BadEvent(7)), true)
    );
    Ok(())
}
