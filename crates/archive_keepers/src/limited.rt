//! A keeper with a limit on the length of a collection.

ghost use Rattle.std.specs.Prelude.{◌≡◌, ◌<◌, ◌≤◌, ◌↔◌, [], length, unwrap_or, Err, IfOk, OnOk, IsTrue};
ghost use Rattle.tws_best.specs.Best.{collection_text};
ghost use Rattle.archive_table.specs.Keeper.{KeeperGrows, Loads, kept_by, texts_of};
ghost use Rattle.byte_output.specs.Failures.{Rises};
ghost use Rattle.archive_keepers.specs.Limited.{own_calls, refusing, saturating_sum};

use crate::ghost_log::GhostLog;
use archive_table::{KeepFault, Keeper};
use std::alloc::Allocator;
use std::marker::Model;
use tws_best::Collection;
use tws_file::Ruleset;

/// A keeper over another one, which refuses a collection whose text is longer than a limit. A server with it never has a
/// collection that it cannot serve, if it had none at first.
///
/// Its log has each collection that it was given, the refused ones among them, if the keeper below has a log.
#[derive(Drop)]
pub struct Limited<K: Keeper> {
    keeper: K,
    limit: u64,
    refused: u64,
    entries: GhostLog,
}

impl<K: Keeper> Model for Limited<K> {
    ghost use Rattle.archive_keepers.specs.Limited.{LimitedKeeper, LoadsSame};

    ghost Value = { LimitedKeeper K };

    ghost view = { λ l. record { keeper = l.keeper; limit = l.limit; refused = l.refused; entries = l.entries.entries } };

    ghost invariant = { λ l. LoadsSame l.entries.entries (K.calls l.keeper) };
}

impl<K: Keeper> Limited<K> {
    /// Returns a keeper over this one, for texts of at most `limit` bytes. What the keeper has already may be longer.
    pub fn new(keeper: K, limit: u64) -> Self
        ensures { result ≡ record { keeper = keeper; limit = limit; refused = 0; entries = unwrap_or (K.calls keeper) [] } }
    {
        let entries = GhostLog::of(&keeper);
        Limited {
            keeper,
            limit,
            refused: 0,
            entries,
        }
    }

    /// The keeper below.
    pub fn keeper(&self) -> &K
        ensures { result.now ≡ self.now.keeper }
    {
        &self.keeper
    }

    /// How many collections were refused for their length, saturating.
    pub fn refused(&self) -> u64
        ensures { result ≡ self.now.refused }
    {
        self.refused
    }

    // Whether the text of a collection is longer than the limit.
    fn is_too_long<A: Allocator>(&self, collection: &Collection<A>) -> bool
        ensures { IsTrue result ↔ (self.now.limit < length (collection_text collection.now)) }
    {
        collection.text_len() > self.limit as u128
    }
}

impl<K: Keeper> Keeper for Limited<K> {
    ghost calls = { λ l. own_calls (K.calls l.keeper) l.entries };

    ghost failed = { λ l. saturating_sum (K.failed l.keeper) l.refused };

    fn keep<A: Allocator>(
        &mut self,
        ruleset: Ruleset,
        collection: &Collection<A>,
    ) -> Result<(), KeepFault>
        // A longer text is refused, and the keeper below does not see it.
        ensures limited { self.old.limit < length (collection_text collection.now) → (result ≡ Err KeepFault.Device) × (self.new ≡ refusing self.old «ruleset» (collection_text collection.now)) }
        // Any other is given to the keeper below.
        ensures below { length (collection_text collection.now) ≤ self.old.limit → KeeperGrows (K.calls self.old.keeper) (K.calls self.new.keeper) (kept_by result «ruleset» (collection_text collection.now)) }
        ensures below_failed { length (collection_text collection.now) ≤ self.old.limit → result ≡ Err KeepFault.Device → Rises (K.failed self.old.keeper) (K.failed self.new.keeper) }
        ensures refused { length (collection_text collection.now) ≤ self.old.limit → self.new.refused ≡ self.old.refused }
        ensures limit { self.new.limit ≡ self.old.limit }
        ensures within { OnOk result (length (collection_text collection.now) ≤ self.old.limit) }
        ensures calls { KeeperGrows (own_calls (K.calls self.old.keeper) self.old.entries) (own_calls (K.calls self.new.keeper) self.new.entries) (kept_by result «ruleset» (collection_text collection.now)) }
        ensures more { saturating_sum (K.failed self.old.keeper) self.old.refused ≤ saturating_sum (K.failed self.new.keeper) self.new.refused }
        ensures failed { result ≡ Err KeepFault.Device → Rises (saturating_sum (K.failed self.old.keeper) self.old.refused) (saturating_sum (K.failed self.new.keeper) self.new.refused) }
    {
        let result = if self.is_too_long(collection) {
            self.refused = self.refused.saturating_add(1);
            Err(KeepFault::Device)
        } else {
            self.keeper.keep(ruleset, collection)
        };
        self.entries = GhostLog::of(&(&self.entries, ruleset, collection, &result));
        result
    }

    fn load<A: Allocator>(
        &mut self,
        alloc: A,
        ruleset: Ruleset,
    ) -> Result<Option<Vec<u8, A>>, KeepFault>
        ensures below { IfOk result (λ text. Loads «ruleset» (K.calls self.old.keeper) (texts_of text)) }
        ensures below_calls { K.calls self.new.keeper ≡ K.calls self.old.keeper }
        ensures below_failed { result ≡ Err KeepFault.Device → Rises (K.failed self.old.keeper) (K.failed self.new.keeper) }
        ensures refused { self.new.refused ≡ self.old.refused }
        ensures limit { self.new.limit ≡ self.old.limit }
        ensures entries { self.new.entries ≡ self.old.entries }
        ensures calls { own_calls (K.calls self.new.keeper) self.new.entries ≡ own_calls (K.calls self.old.keeper) self.old.entries }
        ensures text { IfOk result (λ text. Loads «ruleset» (own_calls (K.calls self.old.keeper) self.old.entries) (texts_of text)) }
        ensures more { saturating_sum (K.failed self.old.keeper) self.old.refused ≤ saturating_sum (K.failed self.new.keeper) self.new.refused }
        ensures failed { result ≡ Err KeepFault.Device → Rises (saturating_sum (K.failed self.old.keeper) self.old.refused) (saturating_sum (K.failed self.new.keeper) self.new.refused) }
    {
        self.keeper.load(alloc, ruleset)
    }

    fn failures(&self) -> u64 {
        self.keeper.failures().saturating_add(self.refused)
    }
}
