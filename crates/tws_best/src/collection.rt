//! Collections of the best solutions.

ghost use Rattle.std.specs.Prelude.{◌≡◌, ◌≢◌, ◌↔◌, List, [], ◌∷◌, ◌++◌, ◌<◌, ◌^◌, length, false, Ok, IsOk, Contains, IsTrue, IfOk, IfErr, IfSome, IfNone, OnOk, OnErr, MatchBool};
ghost use Rattle.std.specs.Io.KnownBytes.{Appends};
ghost use Rattle.byte_output.specs.Output.{AppendsPrefix};
ghost use Rattle.std.specs.List.{AllByRecursion};
ghost use Rattle.tws_file.specs.Text.{IsRecord};
ghost use Rattle.tws_file.specs.Record.{records_of};
ghost use Rattle.tws_best.specs.Best.{IsBestOf, IsCollected, HasBody, HasKey, solutions_of, solved_in, collection_text};
ghost use Rattle.tws_best.specs.Bodies.{BodyPair, pairs_of};
ghost use Rattle.tws_best.specs.Steps.{LeadsBack};
ghost use Rattle.tws_best.specs.Frozen.{frozen, frozen_text};

use crate::bodies::Bodies;
use crate::changes::{Changes, add, undo};
use crate::snapshot::Snapshot;
use crate::text::write_parts;
use byte_output::OutFault;
use std::alloc::{AllocError, Allocator, Global};
use std::clone::Clone;
use std::io::Write;
use std::marker::Model;
use tws_file::{Key, Record, Ruleset, TwsFile};

/// The best solution of each level number and password, over all files that were merged.
#[derive(Drop)]
pub struct Collection<A: Allocator = Global> {
    alloc: A,
    ruleset: Ruleset,
    best: Bodies<A>,
}

impl<A: Allocator> Model for Collection<A> {
    ghost use Rattle.tws_best.specs.Best.{Collected, IsCollected};

    ghost Value = { Collected };

    ghost use Rattle.tws_best.specs.Collection.{collected};

    ghost view = { collected };

    ghost invariant = { λ c. IsCollected (collected c) };
}

impl<A: Allocator + Copy> Collection<A> {
    /// A collection without solutions. Does not allocate until it grows.
    pub fn new(alloc: A, ruleset: Ruleset) -> Self
        ensures rules { result.ruleset ≡ «ruleset» }
        ensures empty { result.entries ≡ [] }
        ensures fits { IsCollected result }
    {
        Collection {
            alloc,
            ruleset,
            best: Bodies::new(alloc),
        }
    }

    /// Returns the best solutions of a file.
    ///
    /// # Errors
    ///
    /// Out of memory.
    pub fn load<B: Allocator>(alloc: A, file: &TwsFile<B>) -> Result<Self, AllocError>
        ensures best { IfOk result (λ c. IsBestOf (Contains (solutions_of file.now.ruleset (file.now ∷ []))) c.entries) }
        ensures rules { IfOk result (λ c. c.ruleset ≡ file.now.ruleset) }
        ensures fits { IfOk result IsCollected }
    {
        let mut collection = Collection::new(alloc, file.ruleset);
        collection.merge(file)?;
        Ok(collection)
    }

    /// Adds the solutions of a file: compares them with the best so far; the best of both remain. Returns whether
    /// anything changed. A file of the other ruleset changes nothing, and nothing is allocated for it.
    ///
    /// # Errors
    ///
    /// Out of memory. The collection is unchanged.
    pub fn merge<B: Allocator>(&mut self, file: &TwsFile<B>) -> Result<bool, AllocError>
        ensures best { OnOk result (IsBestOf (Contains (self.old.entries ++ solutions_of self.old.ruleset (file.now ∷ []))) self.new.entries) }
        ensures rules { self.new.ruleset ≡ self.old.ruleset }
        ensures changed { IfOk result (λ changed. MatchBool changed (self.new ≢ self.old) (self.new ≡ self.old)) }
        ensures err { OnErr result (self.new ≡ self.old) }
        ensures fits { IsCollected self.new }
        ensures other { file.now.ruleset ≢ self.old.ruleset → result ≡ Ok false }
    {
        if self.ruleset != file.ruleset {
            return Ok(false);
        }
        let mut done = Vec::new(self.alloc);
        self.add(&mut done, file.records.as_slice())?;
        Ok(!done.is_empty())
    }

    // No changes yet.
    pub(crate) fn no_changes(&self) -> Changes<A>
        ensures none { result.items ≡ [] }
        ensures fits { IsCollected self.now }
    {
        // The field is read because only then is the invariant known here.
        let _ruleset = self.ruleset;
        Vec::new(self.alloc)
    }

    // Adds the solutions among the records, and notes the changes. On error all changes are undone.
    pub(crate) fn add<B: Allocator>(
        &mut self,
        done: &mut Changes<A>,
        records: &[Record<B>],
    ) -> Result<(), AllocError>
        requires records { AllByRecursion IsRecord (records_of records.now) }
        requires leads { (first : List BodyPair) × LeadsBack first done.old.items (pairs_of self.old.entries) }
        ensures rules { self.new.ruleset ≡ self.old.ruleset }
        ensures best { OnOk result (IsBestOf (Contains (self.old.entries ++ solved_in (records_of records.now))) self.new.entries) }
        ensures leads { (first : List BodyPair) → LeadsBack first done.old.items (pairs_of self.old.entries) → LeadsBack first done.new.items (pairs_of self.new.entries) }
        ensures none { OnErr result (done.new.items ≡ []) }
        ensures fits { IsCollected self.new }
    {
        add(self.alloc, &mut self.best, done, records)
    }

    // Undoes the changes. Does not allocate.
    pub(crate) fn undo(&mut self, done: Changes<A>)
        requires { (first : List BodyPair) × LeadsBack first done.items (pairs_of self.old.entries) }
        ensures rules { self.new.ruleset ≡ self.old.ruleset }
        ensures first { (first : List BodyPair) → LeadsBack first done.items (pairs_of self.old.entries) → pairs_of self.new.entries ≡ first }
    {
        undo(&mut self.best, done)
    }

    /// Returns an equal collection. The bodies are shared, not copied.
    ///
    /// # Errors
    ///
    /// Out of memory. An empty collection can always be copied.
    pub fn copy(&self) -> Result<Self, AllocError>
        ensures equal { IfOk result (λ copy. copy ≡ self.now) }
        ensures empty { self.now.entries ≡ [] → IsOk result }
    {
        if self.best.map().is_empty() {
            return Ok(Collection::new(self.alloc, self.ruleset));
        }
        let best = self.best.clone()?;
        Ok(Collection {
            alloc: self.alloc,
            ruleset: self.ruleset,
            best,
        })
    }

    /// Returns a snapshot of the current text, which later merges do not change. The text must have fewer than 2^64
    /// bytes. The bodies are shared, not copied.
    ///
    /// # Errors
    ///
    /// Out of memory.
    pub fn snapshot(&self) -> Result<Snapshot<A>, AllocError>
        requires { length (collection_text self.now) < 2 ^ 64 }
        ensures value { IfOk result (λ s. s ≡ frozen self.now) }
        ensures text { IfOk result (λ s. frozen_text s ≡ collection_text self.now) }
    {
        Snapshot::of(self.alloc, self.ruleset, self.best.map())
    }
}

impl<A: Allocator> Collection<A> {
    /// The ruleset of all its solutions.
    pub fn ruleset(&self) -> Ruleset
        ensures { result ≡ self.now.ruleset }
    {
        self.ruleset
    }

    /// The number of solutions.
    pub fn len(&self) -> usize
        ensures { result ≡ length self.now.entries }
    {
        self.best.map().len()
    }

    /// Whether there are no solutions.
    pub fn is_empty(&self) -> bool
        ensures { IsTrue result ↔ (self.now.entries ≡ []) }
    {
        self.best.map().is_empty()
    }

    /// Returns the body of the solution for a key, which is the bytes after its record's size, if the collection has
    /// one.
    pub fn get(&self, key: Key) -> Option<&[u8]>
        ensures found { IfSome result (λ body. HasBody self.now.entries key body.now) }
        ensures absent { IfNone result (HasKey self.now.entries key → ⊥) }
    {
        match self.best.get(key) {
            Some(body) => Some(body.as_slice()),
            None => None,
        }
    }

    /// The length of the text in bytes. It is kept, and not added up.
    pub fn text_len(&self) -> u128
        ensures { result ≡ length (collection_text self.now) }
    {
        8 + self.best.records_len()
    }

    /// Writes the text: a header without further bytes, and then a record for each solution, by rising number and then
    /// by the bytes of the password. Does not allocate.
    ///
    /// # Errors
    ///
    /// `Io` if the writer fails. A proper prefix of the text was written.
    pub fn write_text<W: Write>(&self, out: &mut W) -> Result<(), OutFault>
        ensures ok { OnOk result (Appends (W.contents out.old) (W.contents out.new) (collection_text self.now)) }
        ensures err { OnErr result (AppendsPrefix (W.contents out.old) (W.contents out.new) (collection_text self.now)) }
        ensures io { IfErr result (λ e. e ≡ OutFault.Io) }
    {
        write_parts(self.ruleset, self.best.map(), out)
    }
}
