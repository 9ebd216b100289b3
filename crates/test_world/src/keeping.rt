//! Runs in which a keep fails.

// What the keeper of a replay is given, and keepers that fail.
use crate::scene::{Act, NO_CALL, NOTHING, Wanted, failing, fault_by, other_after};
use archive_memory::MemoryKeeper;
use archive_world::{SERVER, WorldFault};
use std::alloc::Global;
use std::test::Fail;
use test_samples::{
    ACK_0, ACK_1, ALICE, BOB, CAROL, DATA_HUNDRED, EMPTY_MS, HUNDRED, NOT_KEPT, PEER, SECOND_PEER,
    THIRD_PEER, UNREADABLE, WRQ,
};

// The same file from three clients, one after another.
const THREE_PUTS: [Act<'static>; 15] = [
    Act::Put(ALICE, HUNDRED),
    Act::Ask(0, 4000),
    Act::Deliver(1),
    Act::Deliver(2),
    Act::Deliver(3),
    Act::Put(BOB, HUNDRED),
    Act::Ask(4, 4001),
    Act::Deliver(5),
    Act::Deliver(6),
    Act::Deliver(7),
    Act::Put(CAROL, HUNDRED),
    Act::Ask(8, 4002),
    Act::Deliver(9),
    Act::Deliver(10),
    Act::Deliver(11),
];

// It is taken three times, and kept once.
#[test]
fn one_file_of_three_clients(rt: HostRuntime) -> Result<(), Fail> {
    const WANTED: Wanted<'static> = Wanted {
        taken: &[(ALICE, HUNDRED), (BOB, HUNDRED), (CAROL, HUNDRED)],
        sent: &[ALICE, BOB, CAROL],
        opened: &[(ALICE, 4000, 0), (BOB, 4001, 1), (CAROL, 4002, 2)],
        lynx: HUNDRED,
        datagrams: &[
            (ALICE, SERVER, WRQ),
            (PEER, ALICE, ACK_0),
            (ALICE, PEER, DATA_HUNDRED),
            (PEER, ALICE, ACK_1),
            (BOB, SERVER, WRQ),
            (SECOND_PEER, BOB, ACK_0),
            (BOB, SECOND_PEER, DATA_HUNDRED),
            (SECOND_PEER, BOB, ACK_1),
            (CAROL, SERVER, WRQ),
            (THIRD_PEER, CAROL, ACK_0),
            (CAROL, THIRD_PEER, DATA_HUNDRED),
            (THIRD_PEER, CAROL, ACK_1),
        ],
        given: &[(HUNDRED, true)],
        ..NOTHING
    };
    assert_eq!(rt;
        other_after(rt.alloc(), &THREE_PUTS, NO_CALL, &WANTED)?,
        None
    );
    Ok(())
}

// The first keep fails: nothing is taken, and the client is sent an ERROR. The next client's file is taken.
#[test]
fn a_keep_that_fails(rt: HostRuntime) -> Result<(), Fail> {
    const ACTS: &[Act<'static>] = &[
        Act::Put(ALICE, HUNDRED),
        Act::Ask(0, 4000),
        Act::Deliver(1),
        Act::Deliver(2),
        Act::Deliver(3),
        Act::ClientWaits(ALICE),
        Act::PortWaits(4000),
        Act::Put(BOB, HUNDRED),
        Act::Ask(4, 4001),
        Act::Deliver(5),
        Act::Deliver(6),
        Act::Deliver(7),
    ];
    const WANTED: Wanted<'static> = Wanted {
        taken: &[(BOB, HUNDRED)],
        sent: &[BOB],
        opened: &[(ALICE, 4000, 0), (BOB, 4001, 0)],
        lynx: HUNDRED,
        datagrams: &[
            (ALICE, SERVER, WRQ),
            (PEER, ALICE, ACK_0),
            (ALICE, PEER, DATA_HUNDRED),
            (PEER, ALICE, NOT_KEPT),
            (BOB, SERVER, WRQ),
            (SECOND_PEER, BOB, ACK_0),
            (BOB, SECOND_PEER, DATA_HUNDRED),
            (SECOND_PEER, BOB, ACK_1),
        ],
        given: &[(HUNDRED, false), (HUNDRED, true)],
        ..NOTHING
    };
    assert_eq!(rt; other_after(rt.alloc(), ACTS, 1, &WANTED)?, None);
    Ok(())
}

// A put, and then a restart.
const PUT_AND_RESTART: [Act<'static>; 5] = [
    Act::Put(ALICE, HUNDRED),
    Act::Ask(0, 4000),
    Act::Deliver(1),
    Act::Deliver(2),
    Act::Restart,
];

// The keep fails: nothing was taken, and the server loads nothing when it starts again.
#[test]
fn a_restart_after_a_keep_that_fails(rt: HostRuntime) -> Result<(), Fail> {
    const WANTED: Wanted<'static> = Wanted {
        opened: &[(ALICE, 4000, 0)],
        datagrams: &[
            (ALICE, SERVER, WRQ),
            (PEER, ALICE, ACK_0),
            (ALICE, PEER, DATA_HUNDRED),
            (PEER, ALICE, NOT_KEPT),
        ],
        given: &[(HUNDRED, false)],
        ..NOTHING
    };
    assert_eq!(rt;
        other_after(rt.alloc(), &PUT_AND_RESTART, 1, &WANTED)?,
        None
    );
    Ok(())
}

// A load fails: there is no run, and the keeper has what was kept before.
#[test]
fn a_restart_that_fails(rt: HostRuntime) -> Result<(), Fail> {
    let empty = failing(rt.alloc(), 1, &[Act::Restart])?;
    // The load of Lynx is the second call, that of MS the third.
    let lynx = failing(rt.alloc(), 2, &PUT_AND_RESTART)?;
    let ms = failing(rt.alloc(), 3, &PUT_AND_RESTART)?;
    let not_loaded = Some(WorldFault::NotLoaded(4));
    assert_eq!(rt;
        (empty, lynx, ms),
        (
            (Some(WorldFault::NotLoaded(0)), false),
            (not_loaded, true),
            (not_loaded, true)
        )
    );
    Ok(())
}

// The fault of a put and then a restart, with a keeper that has this for Lynx.
fn fault_with(alloc: Global, text: &[u8]) -> Result<Option<WorldFault>, Fail> {
    let text = Vec::from_slice(alloc, text)?;
    let mut keeper = MemoryKeeper::with(alloc, Some(text), None)?;
    fault_by(
        alloc,
        &mut keeper,
        &[Act::Put(ALICE, HUNDRED), Act::Restart],
    )
}

// What a keeper has is not loaded if it is not a file of the ruleset.
#[test]
fn a_restart_with_bytes_that_are_no_collection(rt: HostRuntime) -> Result<(), Fail> {
    for text in [UNREADABLE.as_slice(), EMPTY_MS.as_slice()] {
        assert_eq!(rt;
            fault_with(rt.alloc(), text)?,
            Some(WorldFault::NotLoaded(1))
        );
    }
    Ok(())
}

// What the keeper was given before the fault stays.
#[test]
fn a_fault_after_a_file_was_taken(rt: HostRuntime) -> Result<(), Fail> {
    const ACTS: &[Act<'static>] = &[
        Act::Put(ALICE, HUNDRED),
        Act::Ask(0, 4000),
        Act::Deliver(1),
        Act::Deliver(2),
        Act::Deliver(4),
    ];
    assert_eq!(rt;
        failing(rt.alloc(), NO_CALL, ACTS)?,
        (Some(WorldFault::BadEvent(4)), true)
    );
    Ok(())
}
