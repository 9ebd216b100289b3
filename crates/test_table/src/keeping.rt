//! What a table gives to its keeper.

// Collections that are kept, or not, and loaded again by a server that starts.
use crate::archive::{
    Archive, Input, Left, NOTHING, Row, Then, client, has_texts, is_live, other_of,
};
use archive_memory::MemoryKeeper;
use archive_table::{KeepFault, LoadFault, Step, StepEvent};
use std::alloc::Global;
use std::test::Fail;
use test_samples::{
    ACK_0, ACK_1, DATA_EMPTY_LYNX, DATA_HUNDRED, DATA_NINETY, DATA_UNREADABLE, EMPTY_LYNX,
    EMPTY_MS, HUNDRED, NINETY, NOT_KEPT, RRQ_LYNX, UNREADABLE, WRQ,
};
use tws_file::{FileFault, Ruleset};

// Whether the keeper was given exactly these Lynx texts, and kept each or not.
fn was_given(keeper: &MemoryKeeper, wanted: &[(&[u8; 28], bool)]) -> bool {
    let kept = keeper.kept();
    for (one, (text, ok)) in kept.iter().zip(wanted) {
        if one.ruleset != Ruleset::Lynx || one.text.as_slice() != text.as_slice() || one.ok != *ok {
            return false;
        }
    }
    kept.len() == wanted.len()
}

// The index of the first of these inputs to a new archive whose step is not the expected one; the number of inputs if they
// leave something else, the keeper was given something else, or a server that starts again has other texts.
fn other_kept_by(
    alloc: Global,
    keeper: &mut MemoryKeeper,
    rows: &[(Input<'_>, Then<'_>)],
    left: Left<'_>,
    given: &[(&[u8; 28], bool)],
) -> Result<Option<usize>, Fail> {
    let other = other_of(alloc, Archive::new(alloc), keeper, rows, left)?;
    if other.is_some() {
        return Ok(other);
    }
    let was_given = was_given(keeper, given);
    let is_loaded = loads(alloc, keeper, left.lynx, left.ms);
    Ok(if was_given && is_loaded {
        None
    } else {
        Some(rows.len())
    })
}

// The same with a new keeper, of which only this call fails.
fn other_kept(
    alloc: Global,
    failing: u64,
    rows: &[(Input<'_>, Then<'_>)],
    left: Left<'_>,
    given: &[(&[u8; 28], bool)],
) -> Result<Option<usize>, Fail> {
    let mut keeper = MemoryKeeper::new(alloc);
    keeper.fail_at(failing);
    other_kept_by(alloc, &mut keeper, rows, left, given)
}

// A file that is not kept is refused, and merged into no collection: a reader is sent the empty one, and the same file
// from another client is given to the keeper again.
#[test]
fn a_keep_that_fails(rt: HostRuntime) -> Result<(), Fail> {
    const ROWS: &[Row] = &[
        (Input::Ask(4000, 2, WRQ), Then::Opens(4000, 2, ACK_0)),
        (
            Input::Recv(4000, 2, DATA_HUNDRED),
            Then::Closes(4000, 2, NOT_KEPT),
        ),
        (Input::Wait(4000), Then::Nothing),
        (
            Input::Ask(4002, 4, RRQ_LYNX),
            Then::Opens(4002, 4, DATA_EMPTY_LYNX),
        ),
        (Input::Recv(4002, 4, ACK_1), Then::Ends),
        (Input::Ask(4001, 3, WRQ), Then::Opens(4001, 3, ACK_0)),
        (
            Input::Recv(4001, 3, DATA_HUNDRED),
            Then::Takes(4001, 3, ACK_1, HUNDRED),
        ),
    ];
    const LEFT: Left<'static> = Left {
        lynx: HUNDRED,
        live: 1,
        least: Some(4001),
        ..NOTHING
    };
    let given = [(HUNDRED, false), (HUNDRED, true)];
    assert_eq!(rt; other_kept(rt.alloc(), 1, ROWS, LEFT, &given)?, None);
    Ok(())
}

// The collection stays as it was before a better file that is not kept, also for a server that starts again.
#[test]
fn a_better_file_that_is_not_kept(rt: HostRuntime) -> Result<(), Fail> {
    const ROWS: &[Row] = &[
        (Input::Ask(4000, 2, WRQ), Then::Opens(4000, 2, ACK_0)),
        (
            Input::Recv(4000, 2, DATA_HUNDRED),
            Then::Takes(4000, 2, ACK_1, HUNDRED),
        ),
        (Input::Ask(4001, 3, WRQ), Then::Opens(4001, 3, ACK_0)),
        (
            Input::Recv(4001, 3, DATA_NINETY),
            Then::Closes(4001, 3, NOT_KEPT),
        ),
        (
            Input::Ask(4001, 4, RRQ_LYNX),
            Then::Opens(4001, 4, DATA_HUNDRED),
        ),
    ];
    const LEFT: Left<'static> = Left {
        lynx: HUNDRED,
        live: 2,
        least: Some(4000),
        ..NOTHING
    };
    let given = [(HUNDRED, true), (NINETY, false)];
    assert_eq!(rt; other_kept(rt.alloc(), 2, ROWS, LEFT, &given)?, None);
    Ok(())
}

// The second file changes nothing, and nothing is kept for it; nor for bytes that are not a file.
#[test]
fn nothing_to_keep(rt: HostRuntime) -> Result<(), Fail> {
    const ROWS: &[Row] = &[
        (Input::Ask(4000, 2, WRQ), Then::Opens(4000, 2, ACK_0)),
        (
            Input::Recv(4000, 2, DATA_HUNDRED),
            Then::Takes(4000, 2, ACK_1, HUNDRED),
        ),
        (Input::Ask(4001, 3, WRQ), Then::Opens(4001, 3, ACK_0)),
        (
            Input::Recv(4001, 3, DATA_HUNDRED),
            Then::Takes(4001, 3, ACK_1, HUNDRED),
        ),
        (Input::Ask(4002, 4, WRQ), Then::Opens(4002, 4, ACK_0)),
        (
            Input::Recv(4002, 4, DATA_UNREADABLE),
            Then::Takes(4002, 4, ACK_1, UNREADABLE),
        ),
    ];
    const LEFT: Left<'static> = Left {
        lynx: HUNDRED,
        live: 3,
        least: Some(4000),
        ..NOTHING
    };
    let given = [(HUNDRED, true)];
    assert_eq!(rt; other_kept(rt.alloc(), 0, ROWS, LEFT, &given)?, None);
    Ok(())
}

fn fault(alloc: Global, keeper: &mut MemoryKeeper) -> Option<LoadFault> {
    match Archive::load(alloc, keeper) {
        Ok(_archive) => None,
        Err(fault) => Some(fault),
    }
}

fn copied(alloc: Global, text: Option<&[u8]>) -> Result<Option<Vec<u8>>, Fail> {
    match text {
        Some(bytes) => Ok(Some(Vec::from_slice(alloc, bytes)?)),
        None => Ok(None),
    }
}

// A keeper with these texts for Lynx and MS.
fn keeper_with(
    alloc: Global,
    lynx: Option<&[u8]>,
    ms: Option<&[u8]>,
) -> Result<MemoryKeeper, Fail> {
    let lynx = copied(alloc, lynx)?;
    let ms = copied(alloc, ms)?;
    Ok(MemoryKeeper::with(alloc, lynx, ms)?)
}

// Why nothing is loaded from a keeper with these texts for Lynx and MS, if this call of it fails.
fn fault_of(
    alloc: Global,
    lynx: Option<&[u8]>,
    ms: Option<&[u8]>,
    failing: u64,
) -> Result<Option<LoadFault>, Fail> {
    let mut keeper = keeper_with(alloc, lynx, ms)?;
    keeper.fail_at(failing);
    Ok(fault(alloc, &mut keeper))
}

// A keeper's texts for Lynx and MS, which call of it fails, and why nothing is loaded then.
type Refused = (Option<&'static [u8]>, Option<&'static [u8]>, u64, LoadFault);

// After a Lynx text that cannot be loaded the second call is never made, so it cannot fail.
#[test]
fn loading_refused(rt: HostRuntime) -> Result<(), Fail> {
    const DEVICE: LoadFault = LoadFault::Keep(KeepFault::Device);
    const SHORT: LoadFault = LoadFault::Unreadable(FileFault::ShortHeader(7));
    const TEXT: Option<&'static [u8]> = Some(UNREADABLE);
    const ROWS: [Refused; 10] = [
        (None, TEXT, 1, DEVICE),
        (TEXT, TEXT, 0, SHORT),
        (TEXT, TEXT, 1, DEVICE),
        (TEXT, TEXT, 2, SHORT),
        (Some(EMPTY_MS), TEXT, 0, LoadFault::WrongRuleset),
        (Some(EMPTY_MS), TEXT, 2, LoadFault::WrongRuleset),
        (None, None, 2, DEVICE),
        (None, TEXT, 0, SHORT),
        (None, TEXT, 2, DEVICE),
        (None, Some(EMPTY_LYNX), 0, LoadFault::WrongRuleset),
    ];
    for (lynx, ms, failing, wanted) in ROWS {
        assert_eq!(rt; fault_of(rt.alloc(), lynx, ms, failing)?, Some(wanted));
    }
    Ok(())
}

// Whether a server loaded from this keeper has these texts, and no transfer.
fn loads(alloc: Global, keeper: &mut MemoryKeeper, lynx: &[u8], ms: &[u8]) -> bool {
    match Archive::load(alloc, keeper) {
        Ok(archive) => {
            let has_texts = has_texts(alloc, &archive, lynx, ms);
            let is_idle = is_live(&archive, 0, None);
            has_texts && is_idle
        }
        Err(_fault) => false,
    }
}

// Whether both texts are loaded from a keeper that has them.
fn loads_both(alloc: Global, lynx: &[u8], ms: &[u8]) -> Result<bool, Fail> {
    let mut keeper = keeper_with(alloc, Some(lynx), Some(ms))?;
    let count = keeper.kept().len();
    let are_loaded = loads(alloc, &mut keeper, lynx, ms);
    Ok(are_loaded && count == 2)
}

// Whether empty texts are loaded from a keeper that has none.
fn loads_none(alloc: Global) -> bool {
    loads(alloc, &mut MemoryKeeper::new(alloc), EMPTY_LYNX, EMPTY_MS)
}

#[test]
fn loading(rt: HostRuntime) -> Result<(), Fail> {
    let are_loaded = (
        loads_both(rt.alloc(), HUNDRED, EMPTY_MS)?,
        loads_none(rt.alloc()),
    );
    assert_eq!(rt; are_loaded, (true, true));
    Ok(())
}

// Whether a server takes the file.
fn takes(archive: &mut Archive, keeper: &mut MemoryKeeper) -> Result<bool, Fail> {
    archive.ask(4000, client(2), WRQ)?;
    let step = archive.handle(keeper, 4000, client(2), DATA_HUNDRED);
    Ok(step.taken.is_some())
}

// The same for a new one.
fn takes_at_new(alloc: Global, keeper: &mut MemoryKeeper) -> Result<bool, Fail> {
    takes(&mut Archive::new(alloc), keeper)
}

// Whether a server loads what was taken, and no more.
fn finds(alloc: Global, keeper: &mut MemoryKeeper, is_taken: bool) -> bool {
    let lynx = if is_taken {
        HUNDRED.as_slice()
    } else {
        EMPTY_LYNX.as_slice()
    };
    loads(alloc, keeper, lynx, EMPTY_MS)
}

// Whether a server loads what was taken when it starts again after this call of its keeper has failed. The first call
// keeps the file, the second and third load.
fn finds_what_was_taken(
    alloc: Global,
    keeper: &mut MemoryKeeper,
    failing: u64,
) -> Result<bool, Fail> {
    keeper.fail_at(failing);
    let is_taken = takes_at_new(alloc, keeper)?;
    let is_refused = fault(alloc, keeper).is_some();
    let is_found = finds(alloc, keeper, is_taken);
    Ok((is_found, is_taken, is_refused) == (true, failing != 1, failing > 1))
}

// The same with a new keeper.
fn starts_again(alloc: Global, failing: u64) -> Result<bool, Fail> {
    finds_what_was_taken(alloc, &mut MemoryKeeper::new(alloc), failing)
}

// Each call of the keeper fails in turn.
#[test]
fn starting_again(rt: HostRuntime) -> Result<(), Fail> {
    for failing in 0..4 {
        assert!(rt; starts_again(rt.alloc(), failing)?, "{failing}");
    }
    Ok(())
}

// An MS file with solutions of two levels.
const DATA_TWO_LEVELS: &[u8; 52] =
    b"\0\x03\0\x01\x35\x33\x9B\x99\x02\0\0\0\x10\0\0\0\x01\0BDHP\0\0\0\0\0\0\x64\0\0\0\x10\0\0\0\x02\0JXMJ\0\0\0\0\0\0\x64\0\0\0";

// How many solutions a file improved that a step took; `None` if it took none.
fn better(step: &Step) -> Option<u64> {
    match step.event() {
        StepEvent::Taken(merged) => Some(merged.better),
        _ => None,
    }
}

// Whether each of these files improves this many solutions, or is not taken.
fn counts(
    archive: &mut Archive,
    keeper: &mut MemoryKeeper,
    rows: &[(u16, &[u8], Option<u64>)],
) -> Result<bool, Fail> {
    for (port, data, count) in rows {
        archive.ask(*port, client(2), WRQ)?;
        if better(&archive.handle(keeper, *port, client(2), data)) != *count {
            return Ok(false);
        }
    }
    Ok(true)
}

// Whether a new table counts so, whose second keep fails.
fn counts_at_new(alloc: Global, rows: &[(u16, &[u8], Option<u64>)]) -> Result<bool, Fail> {
    let mut keeper = MemoryKeeper::new(alloc);
    keeper.fail_at(2);
    counts(&mut Archive::new(alloc), &mut keeper, rows)
}

// A file that changes nothing is taken, one that is not kept is not.
#[test]
fn what_became_better(rt: HostRuntime) -> Result<(), Fail> {
    const ROWS: &[(u16, &[u8], Option<u64>)] = &[
        (4000, DATA_HUNDRED, Some(1)),
        (4001, DATA_HUNDRED, Some(0)),
        (4002, DATA_NINETY, None),
        (4003, DATA_NINETY, Some(1)),
        (4004, DATA_TWO_LEVELS, Some(2)),
        (4005, DATA_UNREADABLE, Some(0)),
    ];
    assert!(rt; counts_at_new(rt.alloc(), ROWS)?);
    Ok(())
}
