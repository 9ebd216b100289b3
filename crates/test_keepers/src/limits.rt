//! Collections about the limit.

// A keeper with a limit in bytes. The text of HUNDRED has 28.
use crate::samples::*;
use archive_keepers::Limited;
use archive_memory::MemoryKeeper;
use archive_table::{KeepFault, Keeper};
use std::test::Fail;
use test_samples::HUNDRED;

type Kept = (Result<(), KeepFault>, u8, u64, u64, usize);

// A keep and a load: the result of the keep, which text is loaded, how many keeps were refused, how many failures are
// counted, and how many collections the keeper below was given.
fn keep_and_load(rt: HostRuntime, keeper: &mut Limited<MemoryKeeper>) -> Result<Kept, Fail> {
    let result = keep(rt, keeper, HUNDRED)?;
    let text = loaded(rt, keeper)?;
    let given = keeper.keeper().kept().len();
    Ok((result, text, keeper.refused(), keeper.failures(), given))
}

// The same with this limit.
fn kept_within(rt: HostRuntime, limit: u64) -> Result<Kept, Fail> {
    let mut keeper = Limited::new(MemoryKeeper::new(rt.alloc()), limit);
    keep_and_load(rt, &mut keeper)
}

// A text of the limit's length is kept, and one of a byte more is not.
#[test]
fn texts_about_the_limit(rt: HostRuntime) -> Result<(), Fail> {
    for (limit, wanted) in [
        (28, (Ok(()), 1, 0, 0, 1)),
        (27, (Err(KeepFault::Device), 0, 1, 1, 0)),
    ] {
        assert_eq!(rt; kept_within(rt, limit)?, wanted);
    }
    Ok(())
}
