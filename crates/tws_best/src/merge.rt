//! Merges part after part, and their undo.

ghost use Rattle.std.specs.Prelude.{◌≡◌, ◌≢◌, ◌↔◌, ◌++◌, Contains, OnOk, OnErr, MatchBool};
ghost use Rattle.std.specs.List.{AllByRecursion};
ghost use Rattle.tws_file.specs.Text.{IsRecord};
ghost use Rattle.tws_file.specs.Record.{records_of};
ghost use Rattle.tws_best.specs.Best.{IsBestOf, IsCollected, solved_in};

use crate::changes::Changes;
use crate::collection::Collection;
use std::alloc::{AllocError, Allocator, Global};
use std::marker::Model;
use tws_file::Record;

/// A collection into which records are merged part after part. Until it is finished it can be undone.
///
/// It costs memory for what changes, not for the collection.
#[derive(Drop)]
pub struct Merge<A: Allocator + Copy = Global> {
    collection: Collection<A>,
    done: Changes<A>,
}

impl<A: Allocator + Copy> Model for Merge<A> {
    ghost use Rattle.tws_best.specs.Merge.{Merging, merging_of, IsMerging};

    ghost Value = { Merging };

    ghost view = { merging_of };

    ghost invariant = { IsMerging };
}

impl<A: Allocator + Copy> Merge<A> {
    /// Begins a merge into a collection. Does not allocate.
    pub fn of(collection: Collection<A>) -> Self
        ensures first { result.first ≡ collection }
        ensures now { result.now ≡ collection }
        ensures fits { IsCollected collection }
    {
        let done = collection.no_changes();
        Merge { collection, done }
    }

    /// Merges the solutions among these records: the best of both remain.
    ///
    /// # Errors
    ///
    /// Out of memory. All parts are then undone.
    pub fn take<B: Allocator>(&mut self, records: &[Record<B>]) -> Result<(), AllocError>
        requires records { AllByRecursion IsRecord (records_of records.now) }
        ensures first { self.new.first ≡ self.old.first }
        ensures rules { self.new.now.ruleset ≡ self.old.now.ruleset }
        ensures best { OnOk result (IsBestOf (Contains (self.old.now.entries ++ solved_in (records_of records.now))) self.new.now.entries) }
        ensures err { OnErr result (self.new.now ≡ self.old.first) }
    {
        self.collection.add(&mut self.done, records)
    }

    /// Whether anything changed.
    pub fn is_changed(&self) -> bool
        ensures { MatchBool result (self.now.now ≢ self.now.first) (self.now.now ≡ self.now.first) }
    {
        !self.done.is_empty()
    }

    /// The number of changes: how often a solution was better than what the collection had for its key, or the first
    /// there. A key that changed twice counts twice.
    pub fn changes(&self) -> usize
        ensures { (result ≡ 0) ↔ (self.now.now ≡ self.now.first) }
    {
        self.done.len()
    }

    /// The collection as it is now.
    pub fn collection(&self) -> &Collection<A>
        ensures { result.now ≡ self.now.now }
    {
        &self.collection
    }

    /// Returns the collection as it is now. Does not allocate.
    pub fn finish(self) -> Collection<A>
        ensures { result ≡ self.now }
    {
        self.collection
    }

    /// Returns the collection as it was at first. Does not allocate.
    pub fn undo(self) -> Collection<A>
        ensures { result ≡ self.first }
    {
        let Merge { collection, done } = self;
        let mut collection = collection;
        collection.undo(done);
        collection
    }
}
