//! What keeps the collections over restarts.

ghost use Rattle.std.specs.Prelude.{◌≡◌, ◌≤◌, ℕ, List, Option, Err, IfOk};
ghost use Rattle.tws_best.specs.Best.{collection_text};
ghost use Rattle.archive_table.specs.Keeper.{Keeping, KeeperGrows, Loads, kept_by, texts_of};
ghost use Rattle.byte_output.specs.Failures.{Rises};

use crate::keep_fault::KeepFault;
use std::alloc::Allocator;
use tws_best::Collection;
use tws_file::Ruleset;

/// Keeps the collections, so that a server finds them again after a restart.
pub trait Keeper {
    /// What it was given to keep, in order, if this keeper has a ghost log. One that has it always does.
    ghost calls: { Self → Option (List Keeping) };

    /// The number of calls of the device that failed so far, saturating at `u64::MAX`.
    ghost failed: { Self → ℕ };

    /// Keeps a collection of this ruleset in place of the last one.
    ///
    /// # Errors
    ///
    /// `Device` only if `failures` rose in this call or is `u64::MAX`; `Memory` if an allocation was refused. If
    /// there is a log, what can be loaded does not change.
    fn keep<A: Allocator>(
        &mut self,
        ruleset: Ruleset,
        collection: &Collection<A>,
    ) -> Result<(), KeepFault>
        ensures calls { KeeperGrows (calls self.old) (calls self.new) (kept_by result «ruleset» (collection_text collection.now)) }
        ensures more { failed self.old ≤ failed self.new }
        ensures failed { result ≡ Err KeepFault.Device → Rises (failed self.old) (failed self.new) };

    /// The text that was kept last for this ruleset, `None` if there is none.
    ///
    /// # Errors
    ///
    /// As for `keep`.
    fn load<A: Allocator>(
        &mut self,
        alloc: A,
        ruleset: Ruleset,
    ) -> Result<Option<Vec<u8, A>>, KeepFault>
        ensures calls { calls self.new ≡ calls self.old }
        ensures text { IfOk result (λ text. Loads «ruleset» (calls self.old) (texts_of text)) }
        ensures more { failed self.old ≤ failed self.new }
        ensures failed { result ≡ Err KeepFault.Device → Rises (failed self.old) (failed self.new) };

    /// The number of calls of the device that failed so far, saturating at `u64::MAX`.
    fn failures(&self) -> u64
        ensures { result ≡ failed self.now };
}
