//! A keeper that refuses all collections.

ghost use Rattle.std.specs.Prelude.{[], Some};

use archive_table::{KeepFault, Keeper};
use std::alloc::Allocator;
use tws_best::Collection;
use tws_file::Ruleset;

/// A keeper that has no memory for any collection.
#[derive(Clone, Copy, Debug)]
pub(crate) struct RefusingKeeper;

impl Keeper for RefusingKeeper {
    ghost calls = { λ _. Some [] };

    ghost failed = { λ _. 0 };

    fn keep<A: Allocator>(
        &mut self,
        _ruleset: Ruleset,
        _collection: &Collection<A>,
    ) -> Result<(), KeepFault> {
        Err(KeepFault::Memory)
    }

    fn load<A: Allocator>(
        &mut self,
        _alloc: A,
        _ruleset: Ruleset,
    ) -> Result<Option<Vec<u8, A>>, KeepFault> {
        Ok(None)
    }

    fn failures(&self) -> u64 {
        0
    }
}
