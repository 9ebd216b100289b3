//! A keeper that keeps nothing which could not be undone.

ghost use Rattle.std.specs.Prelude.{◌≡◌, ◌≢◌, ◌<◌, ◌≤◌, None, Err, IsErr, IfSome, OnOk, OnErr};
ghost use Rattle.archive_keepers.specs.Limited.{saturating_sum};
ghost use Rattle.byte_output.specs.Failures.{Rises};

use crate::dir_keeper::keep_fault;
use crate::history_room::HistoryRoom;
use archive_keepers::{Replaced, ServedKeeper};
use archive_table::{KeepFault, Keeper};
use std::alloc::Allocator;
use std::fs::File;
use std::io;
use std::rt::Files;
use std::time::Clock;
use tws_best::Collection;
use tws_file::Ruleset;

/// A keeper over another one. While a history has no room for what was sent, nothing is kept: whoever asked for a history can
/// undo each change of a collection. It has no ghost calls.
#[derive(Drop)]
pub struct RecordingKeeper<K: ServedKeeper, R: Files<File = File> + Clock + AllocGlobal + Copy> {
    keeper: K,
    // The room of the history, if there is one.
    room: Option<HistoryRoom<R>>,
    // How many collections were refused for want of room, saturating, and why the last look found none.
    refused: u64,
    error: Option<io::Error>,
}

impl<K: ServedKeeper, R: Files<File = File> + Clock + AllocGlobal + Copy> RecordingKeeper<K, R> {
    /// A keeper over this one, with a look at this room before each call of `keep`, if one is given.
    pub fn new(keeper: K, room: Option<HistoryRoom<R>>) -> Self
        ensures keeper { result.keeper ≡ keeper }
        ensures room { result.room ≡ room }
        ensures refused { result.refused ≡ 0 }
    {
        RecordingKeeper {
            keeper,
            room,
            refused: 0,
            error: None,
        }
    }

    // Looks whether there is room for a file in the history, if there is one.
    fn look(&mut self) -> io::Result<()>
        ensures keeper { self.new.keeper ≡ self.old.keeper }
        ensures refused { self.new.refused ≡ self.old.refused }
        ensures without { self.old.room ≡ None → OnErr result ⊥ }
        ensures room { OnOk result (IfSome self.new.room (λ room. room.used < room.limit)) }
    {
        match &mut self.room {
            Some(room) => room.look(),
            None => Ok(()),
        }
    }
}

impl<K: ServedKeeper, R: Files<File = File> + Clock + AllocGlobal + Copy> Keeper
    for RecordingKeeper<K, R> {
    ghost calls = { λ _. None };

    ghost failed = { λ k. saturating_sum (K.failed k.keeper) k.refused };

    fn keep<A: Allocator>(
        &mut self,
        ruleset: Ruleset,
        collection: &Collection<A>,
    ) -> Result<(), KeepFault>
        // A collection that the keeper below is not given stays as it was there.
        ensures refused { self.new.refused ≢ self.old.refused → IsErr result × (self.new.keeper ≡ self.old.keeper) }
        ensures without { self.old.room ≡ None → self.new.refused ≡ self.old.refused }
        // What is kept was kept while there was room, by the last count.
        ensures room { OnOk result (IfSome self.new.room (λ room. room.used < room.limit)) }
        ensures more { saturating_sum (K.failed self.old.keeper) self.old.refused ≤ saturating_sum (K.failed self.new.keeper) self.new.refused }
        ensures failed { result ≡ Err KeepFault.Device → Rises (saturating_sum (K.failed self.old.keeper) self.old.refused) (saturating_sum (K.failed self.new.keeper) self.new.refused) }
    {
        self.error = None;
        if let Err(cause) = self.look() {
            self.error = Some(cause);
            self.refused = self.refused.saturating_add(1);
            return Err(keep_fault(&cause));
        }
        self.keeper.keep(ruleset, collection)
    }

    fn load<A: Allocator>(
        &mut self,
        alloc: A,
        ruleset: Ruleset,
    ) -> Result<Option<Vec<u8, A>>, KeepFault>
        ensures refused { self.new.refused ≡ self.old.refused }
        ensures more { saturating_sum (K.failed self.old.keeper) self.old.refused ≤ saturating_sum (K.failed self.new.keeper) self.new.refused }
        ensures failed { result ≡ Err KeepFault.Device → Rises (saturating_sum (K.failed self.old.keeper) self.old.refused) (saturating_sum (K.failed self.new.keeper) self.new.refused) }
    {
        self.keeper.load(alloc, ruleset)
    }

    fn failures(&self) -> u64 {
        self.keeper.failures().saturating_add(self.refused)
    }
}

impl<K: ServedKeeper, R: Files<File = File> + Clock + AllocGlobal + Copy> ServedKeeper
    for RecordingKeeper<K, R> {
    ghost usable = { λ k. K.usable k.keeper };

    fn is_usable(&self) -> bool {
        self.keeper.is_usable()
    }

    fn replaced(&self) -> Option<Replaced> {
        self.keeper.replaced()
    }

    fn unreadable(&self) -> u64 {
        self.keeper.unreadable()
    }

    fn last_error(&self) -> Option<io::Error> {
        match self.error {
            Some(cause) => Some(cause),
            None => self.keeper.last_error(),
        }
    }
}
