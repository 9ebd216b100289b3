//! The keeper of a server without a folder.

ghost use Rattle.std.specs.Prelude.{◌≡◌, None, Ok};

use archive_table::{KeepFault, Keeper};
use std::alloc::Allocator;
use tws_best::Collection;
use tws_file::Ruleset;

/// A keeper that keeps nothing, loads nothing and has no ghost log, for a server without a folder.
#[derive(Clone, Copy, Debug)]
pub struct NoKeeper;

impl Keeper for NoKeeper {
    ghost calls = { λ _. None };

    ghost failed = { λ _. 0 };

    fn keep<A: Allocator>(
        &mut self,
        _ruleset: Ruleset,
        _collection: &Collection<A>,
    ) -> Result<(), KeepFault>
        ensures kept { result ≡ Ok tt }
    {
        Ok(())
    }

    fn load<A: Allocator>(
        &mut self,
        _alloc: A,
        _ruleset: Ruleset,
    ) -> Result<Option<Vec<u8, A>>, KeepFault>
        ensures none { result ≡ Ok None }
    {
        Ok(None)
    }

    fn failures(&self) -> u64 {
        0
    }
}
