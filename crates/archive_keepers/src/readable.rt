//! A keeper that takes no more solutions that stop Tile World.

ghost use Rattle.std.specs.Prelude.{◌≡◌, ◌≢◌, ◌≤◌, [], false, true, unwrap_or, Err, IfOk, IfErr, IsErr, OnOk, OnErr};
ghost use Rattle.tws_file.specs.declared.«ruleset».Ruleset.{Ruleset as Rules};
ghost use Rattle.tws_file.specs.Text.{File, IsText};
ghost use Rattle.tws_best.specs.Best.{collection_text};
ghost use Rattle.archive_table.specs.Keeper.{KeeperGrows, Loads, kept_by, texts_of};
ghost use Rattle.byte_output.specs.Failures.{Rises};
ghost use Rattle.archive_keepers.specs.Limited.{own_calls, saturating_sum};
ghost use Rattle.archive_keepers.specs.Readable.{IsCountOf, counted, is_refused, no_counts, refuses, refusing_text, stopping};

use crate::counts::Counts;
use crate::ghost_log::GhostLog;
use crate::stopping::{stopping_in, stopping_of};
use archive_table::{KeepFault, Keeper};
use std::alloc::{Allocator, Global};
use std::marker::Model;
use tws_best::Collection;
use tws_file::Ruleset;

/// A keeper over another one, which refuses a collection in which more solutions stop Tile World than in the one of its ruleset
/// that was last kept or loaded. So Tile World can read what a server with it serves, if it could at first, and a folder in
/// which there are such solutions already goes on to be served.
///
/// Its log has each collection that it was given, the refused ones among them, if the keeper below has a log.
#[derive(Drop)]
pub struct Readable<K: Keeper> {
    keeper: K,
    alloc: Global,
    any: bool,
    counts: Counts,
    refused: u64,
    entries: GhostLog,
}

impl<K: Keeper> Model for Readable<K> {
    ghost use Rattle.archive_keepers.specs.Limited.{LoadsSame};
    ghost use Rattle.archive_keepers.specs.Readable.{ReadableKeeper};

    ghost Value = { ReadableKeeper K };

    ghost view = { λ r. record { keeper = r.keeper; any = r.any; counts = r.counts; refused = r.refused; entries = r.entries.entries } };

    ghost invariant = { λ r. LoadsSame r.entries.entries (K.calls r.keeper) };
}

impl<K: Keeper> Readable<K> {
    /// Returns a keeper over this one, of which nothing was loaded yet. With `any` it refuses nothing. It counts in a text that
    /// this allocator gives.
    pub fn new(keeper: K, alloc: Global, any: bool) -> Self
        ensures { result ≡ record { keeper = keeper; any = any; counts = no_counts; refused = 0; entries = unwrap_or (K.calls keeper) [] } }
    {
        let entries = GhostLog::of(&keeper);
        Readable {
            keeper,
            alloc,
            any,
            counts: Counts::none(),
            refused: 0,
            entries,
        }
    }

    /// The keeper below.
    pub fn keeper(&self) -> &K
        ensures { result.now ≡ self.now.keeper }
    {
        &self.keeper
    }

    /// How many collections were refused for their solutions, saturating.
    pub fn refused(&self) -> u64
        ensures { result ≡ self.now.refused }
    {
        self.refused
    }

    // How many solutions in a collection stop Tile World; 0 if that does not matter.
    fn count<A: Allocator>(&self, collection: &Collection<A>) -> Result<usize, KeepFault>
        ensures count { self.now.any ≡ false → (file : File) → IsText (collection_text collection.now) file → IfOk result (λ count. count ≡ stopping file) }
        ensures fault { IfErr result (λ e. e ≡ KeepFault.Memory) }
    {
        if self.any {
            return Ok(0);
        }
        stopping_of(self.alloc, collection)
    }

    // Whether a collection with this many is refused.
    fn is_refused(&self, ruleset: Ruleset, count: usize) -> bool
        ensures { result ≡ is_refused self.now.any (counted «ruleset» self.now.counts) count }
    {
        !self.any && self.counts.of(ruleset) < count
    }
}

impl<K: Keeper> Keeper for Readable<K> {
    ghost calls = { λ r. own_calls (K.calls r.keeper) r.entries };

    ghost failed = { λ r. saturating_sum (K.failed r.keeper) r.refused };

    fn keep<A: Allocator>(
        &mut self,
        ruleset: Ruleset,
        collection: &Collection<A>,
    ) -> Result<(), KeepFault>
        // One with more such solutions is refused, and the keeper below does not see it.
        ensures refused { (file : File) → IsText (collection_text collection.now) file → refuses self.old «ruleset» file ≡ true → IsErr result × (self.new.keeper ≡ self.old.keeper) × (self.new.counts ≡ self.old.counts) }
        ensures refusing { (file : File) → IsText (collection_text collection.now) file → refuses self.old «ruleset» file ≡ true → result ≡ Err KeepFault.Device → self.new ≡ refusing_text self.old «ruleset» (collection_text collection.now) }
        // Any other is given to the keeper below.
        ensures below { (file : File) → IsText (collection_text collection.now) file → refuses self.old «ruleset» file ≡ false → KeeperGrows (K.calls self.old.keeper) (K.calls self.new.keeper) (kept_by result «ruleset» (collection_text collection.now)) }
        ensures below_failed { (file : File) → IsText (collection_text collection.now) file → refuses self.old «ruleset» file ≡ false → result ≡ Err KeepFault.Device → Rises (K.failed self.old.keeper) (K.failed self.new.keeper) }
        ensures passed { (file : File) → IsText (collection_text collection.now) file → refuses self.old «ruleset» file ≡ false → self.new.refused ≡ self.old.refused }
        // What is kept is what the next one is compared with.
        ensures count { self.old.any ≡ false → (file : File) → IsText (collection_text collection.now) file → OnOk result (counted «ruleset» self.new.counts ≡ stopping file) }
        ensures other_count { (other : Rules) → other ≢ «ruleset» → counted other self.new.counts ≡ counted other self.old.counts }
        ensures same_count { OnErr result (self.new.counts ≡ self.old.counts) }
        ensures any { self.new.any ≡ self.old.any }
        ensures calls { KeeperGrows (own_calls (K.calls self.old.keeper) self.old.entries) (own_calls (K.calls self.new.keeper) self.new.entries) (kept_by result «ruleset» (collection_text collection.now)) }
        ensures more { saturating_sum (K.failed self.old.keeper) self.old.refused ≤ saturating_sum (K.failed self.new.keeper) self.new.refused }
        ensures failed { result ≡ Err KeepFault.Device → Rises (saturating_sum (K.failed self.old.keeper) self.old.refused) (saturating_sum (K.failed self.new.keeper) self.new.refused) }
    {
        let count = match self.count(collection) {
            Ok(count) => count,
            Err(fault) => return Err(fault),
        };
        let result = if self.is_refused(ruleset, count) {
            self.refused = self.refused.saturating_add(1);
            Err(KeepFault::Device)
        } else {
            self.keeper.keep(ruleset, collection)
        };
        self.counts = self.counts.after(ruleset, count, result.is_ok());
        self.entries = GhostLog::of(&(&self.entries, ruleset, collection, &result));
        result
    }

    fn load<A: Allocator>(
        &mut self,
        alloc: A,
        ruleset: Ruleset,
    ) -> Result<Option<Vec<u8, A>>, KeepFault>
        ensures below { IfOk result (λ text. Loads «ruleset» (K.calls self.old.keeper) (texts_of text)) }
        ensures below_calls { K.calls self.new.keeper ≡ K.calls self.old.keeper }
        ensures below_failed { result ≡ Err KeepFault.Device → Rises (K.failed self.old.keeper) (K.failed self.new.keeper) }
        // What is loaded is what the next one is compared with.
        ensures count { IfOk result (λ text. IsCountOf (texts_of text) (counted «ruleset» self.new.counts)) }
        ensures other_count { (other : Rules) → other ≢ «ruleset» → counted other self.new.counts ≡ counted other self.old.counts }
        ensures same_count { OnErr result (self.new.counts ≡ self.old.counts) }
        ensures any { self.new.any ≡ self.old.any }
        ensures refused { self.new.refused ≡ self.old.refused }
        ensures entries { self.new.entries ≡ self.old.entries }
        ensures calls { own_calls (K.calls self.new.keeper) self.new.entries ≡ own_calls (K.calls self.old.keeper) self.old.entries }
        ensures text { IfOk result (λ text. Loads «ruleset» (own_calls (K.calls self.old.keeper) self.old.entries) (texts_of text)) }
        ensures more { saturating_sum (K.failed self.old.keeper) self.old.refused ≤ saturating_sum (K.failed self.new.keeper) self.new.refused }
        ensures failed { result ≡ Err KeepFault.Device → Rises (saturating_sum (K.failed self.old.keeper) self.old.refused) (saturating_sum (K.failed self.new.keeper) self.new.refused) }
    {
        let found = match self.keeper.load(alloc, ruleset) {
            Ok(found) => found,
            Err(fault) => return Err(fault),
        };
        let count = match &found {
            Some(text) => stopping_in(text),
            None => 0,
        };
        self.counts = self.counts.with(ruleset, count);
        Ok(found)
    }

    fn failures(&self) -> u64 {
        self.keeper.failures().saturating_add(self.refused)
    }
}
