//! A collection that players can fetch.

ghost use Rattle.std.specs.Prelude.{◌≡◌, ◌≢◌, ◌⊎◌, ◌<◌, ◌^◌, length, nat_lt, MatchBool, Err, IfOk, IfErr, OnOk, OnErr};
ghost use Rattle.tws_best.specs.Best.{collection_text};
ghost use Rattle.tws_best.specs.Frozen.{frozen_text};
ghost use Rattle.archive_table.specs.Events.{IsFaultOf};
ghost use Rattle.archive_table.specs.FileMerge.{MergesFile, RefusesOne};
ghost use Rattle.archive_table.specs.Keeper.{KeepsOne};

use crate::keeper::Keeper;
use crate::keeping::merge_into;
use crate::step_event::Merged;
use std::alloc::{AllocError, Allocator};
use std::clone::Clone;
use std::marker::Model;
use std::rc::Rc;
use tftp_ends::Received;
use tftp_packet::Refusal;
use tws_best::{Collection, Snapshot};

/// A collection, and the snapshot of its text that downloads share, which is made at the first request and kept until
/// the collection changes.
#[derive(Drop)]
pub(crate) struct Published<A: Allocator + Copy> {
    collection: Collection<A>,
    snapshot: Option<Rc<Snapshot<A>, A>>,
}

impl<A: Allocator + Copy> Model for Published<A> {
    ghost use Rattle.tws_best.specs.Best.{Collected};

    ghost Value = { Collected };

    ghost use Rattle.archive_table.specs.Published.{published_in, HasOwnText};

    ghost view = { published_in };

    ghost invariant = { HasOwnText };
}

impl<A: Allocator + Copy> Published<A> {
    /// Returns this collection, without a snapshot yet. Does not allocate.
    pub(crate) fn of(collection: Collection<A>) -> Self
        ensures { result ≡ collection }
    {
        Published {
            collection,
            snapshot: None,
        }
    }

    /// The collection.
    pub(crate) fn collection(&self) -> &Collection<A>
        ensures { result.now ≡ self.now }
    {
        &self.collection
    }

    /// Returns the snapshot of its text, which must have fewer than 2^64 bytes. Does not allocate if the text was asked
    /// for since the collection changed.
    ///
    /// # Errors
    ///
    /// Out of memory. The collection never changes.
    pub(crate) fn snapshot(&mut self, alloc: A) -> Result<Rc<Snapshot<A>, A>, AllocError>
        requires { length (collection_text self.old) < 2 ^ 64 }
        ensures same { self.new ≡ self.old }
        ensures text { IfOk result (λ s. frozen_text s.value ≡ collection_text self.old) }
    {
        if let Some(snapshot) = &self.snapshot {
            return snapshot.clone();
        }
        let Ok(snapshot) = Rc::new(alloc, self.collection.snapshot()?) else {
            return Err(AllocError);
        };
        let shared = snapshot.clone()?;
        self.snapshot = Some(snapshot);
        Ok(shared)
    }

    /// Merges a received file, if it is one of this ruleset, and keeps the collection if that changed it. Bytes that are
    /// not a solution file change nothing. On error nothing changes.
    pub(crate) fn merge<K: Keeper>(
        &mut self,
        alloc: A,
        keeper: &mut K,
        file: &Received<A>,
    ) -> Result<Merged, Refusal>
        ensures fault { IfOk result (λ merged. IsFaultOf file.now merged.fault) }
        ensures better { IfOk result (λ merged. MatchBool (nat_lt 0 merged.better) (self.new ≢ self.old) (self.new ≡ self.old)) }
        ensures merged { OnOk result (MergesFile file.now self.old self.new) }
        ensures unchanged { OnErr result (self.new ≡ self.old) }
        ensures rules { self.new.ruleset ≡ self.old.ruleset }
        ensures refusal { IfErr result (λ e. (e ≡ Refusal.OutOfMemory) ⊎ (e ≡ Refusal.NotKept)) }
        ensures kept { OnOk result (KeepsOne self.old self.new (K.calls keeper.old) (K.calls keeper.new)) }
        ensures unkept { IfErr result (λ e. RefusesOne e file.now self.old (K.calls keeper.old) (K.calls keeper.new)) }
        ensures untouched { result ≢ Err Refusal.NotKept → self.new ≡ self.old → keeper.new ≡ keeper.old }
    {
        match merge_into(alloc, &mut self.collection, keeper, file) {
            Ok(merged) => {
                if merged.better > 0 {
                    self.snapshot = None;
                }
                Ok(merged)
            }
            Err(why) => Err(why),
        }
    }
}
