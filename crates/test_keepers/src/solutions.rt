//! Collections with solutions that stop Tile World.

// A keeper that takes no more of them.
use crate::samples::*;
use archive_keepers::Readable;
use archive_memory::MemoryKeeper;
use archive_table::{KeepFault, Keeper};
use std::test::Fail;
use test_samples::{HUNDRED, NINETY};

// One solution without moves, in so many ticks; one with moves; the same beside the record of a set, as
// Tile World writes it, with a header of nine bytes; one of level 0; and the first two levels without moves.
const STILL: &[u8] = HUNDRED;

const FASTER: &[u8] = NINETY;

const MOVED: &[u8] = b"\x35\x33\x9B\x99\x01\0\0\0\x11\0\0\0\x01\0BDHP\0\0\0\0\0\0\x64\0\0\0\0";

const WRITTEN: &[u8] =
    b"\x35\x33\x9B\x99\x01\x01\0\x01\x07\x12\0\0\0\0\0\0\0\0\0\0\0\0\0\0\0\0\0\0\0s\0\x11\0\0\0\x01\0BDHP\0\0\0\0\0\0\x64\0\0\0\0";

const ZERO: &[u8] = b"\x35\x33\x9B\x99\x01\0\0\0\x11\0\0\0\0\0\0DHP\0\0\0\0\0\0\x64\0\0\0\0";

const BOTH: &[u8] =
    b"\x35\x33\x9B\x99\x01\0\0\0\x10\0\0\0\x01\0BDHP\0\0\0\0\0\0\x64\0\0\0\x10\0\0\0\x02\0JXMJ\0\0\0\0\0\0\x64\0\0\0";

// The result of each keep, which text is loaded afterwards, and how many keeps were refused and how many failures are counted.
type Kept = (Result<(), KeepFault>, Result<(), KeepFault>, u8, u64, u64);

// Keeps two collections, one after the other.
fn keep_two(
    rt: HostRuntime,
    keeper: &mut Readable<MemoryKeeper>,
    first: &[u8],
    second: &[u8],
) -> Result<Kept, Fail> {
    loaded(rt, keeper)?;
    let first = keep(rt, keeper, first)?;
    let second = keep(rt, keeper, second)?;
    let text = loaded(rt, keeper)?;
    Ok((first, second, text, keeper.refused(), keeper.failures()))
}

// The same over a keeper that has this text, if any.
fn kept_over(
    rt: HostRuntime,
    any: bool,
    texts: (Option<&[u8]>, &[u8], &[u8]),
) -> Result<Kept, Fail> {
    let text = match texts.0 {
        Some(text) => Some(Vec::from_slice(rt.alloc(), text)?),
        None => None,
    };
    let below = MemoryKeeper::with(rt.alloc(), text, None)?;
    let mut keeper = Readable::new(below, rt.alloc(), any);
    keep_two(rt, &mut keeper, texts.1, texts.2)
}

const OK: Result<(), KeepFault> = Ok(());

const REFUSED: Result<(), KeepFault> = Err(KeepFault::Device);

#[test]
fn solutions_that_stop_tile_world(rt: HostRuntime) -> Result<(), Fail> {
    for (any, texts, wanted) in [
        (false, (None, STILL, MOVED), (REFUSED, OK, 3, 1, 1)),
        (false, (None, ZERO, BOTH), (REFUSED, REFUSED, 0, 2, 2)),
        (true, (None, STILL, ZERO), (OK, OK, 3, 0, 0)),
        // What was there is not frozen, but once it is gone it does not come back.
        (false, (Some(STILL), BOTH, FASTER), (REFUSED, OK, 2, 1, 1)),
        (false, (Some(STILL), MOVED, FASTER), (OK, REFUSED, 3, 1, 1)),
        (
            false,
            (Some(WRITTEN), FASTER, MOVED),
            (REFUSED, OK, 3, 1, 1),
        ),
    ] {
        assert_eq!(rt; kept_over(rt, any, texts)?, wanted);
    }
    Ok(())
}
