//! The best body so far at each key, with the length of all their records.

ghost use Rattle.std.specs.Prelude.{◌≡◌, ◌<◌, ◌^◌, length, [], None, OnOk, OnErr, IfOk, IfSome, IfNone, MatchOption, true, false, unwrap_or, option_map, option_copied};
ghost use Rattle.std.specs.List.{flat_map};
ghost use Rattle.std.specs.List.Sorted.{IsStrictlySortedBy};
ghost use Rattle.std.specs.Map.{lookup, remove_entry, keys_of, values_of};
ghost use Rattle.std.specs.BTreeMap.{is_at, insert_entry};
ghost use Rattle.std.specs.Ordering.{is_lt};
ghost use Rattle.tws_best.specs.Rank.{rank_of, rank_cmp};
ghost use Rattle.tws_best.specs.Best.{key_cmp, body_text, keyed_body};

use crate::body::Body;
use std::alloc::{AllocError, Allocator};
use std::clone::Clone;
use std::collections::BTreeMap;
use std::collections::btree_map::Entry;
use std::marker::Model;
use tws_file::{Key, Solution};

// Each key with its body.
pub(crate) type BodyMap<A> = BTreeMap<Key, Body<A>, A>;

// A body for each of some keys. The length of their records is kept, so that nobody adds it up again.
#[derive(Drop)]
pub(crate) struct Bodies<A: Allocator> {
    map: BodyMap<A>,
    records_len: u128,
}

impl<A: Allocator> Model for Bodies<A> {
    ghost use Rattle.std.specs.Prelude.{List};
    ghost use Rattle.tws_best.specs.Bodies.{BodyPair};
    ghost use Rattle.tws_best.specs.Measured.{IsMeasured};

    ghost Value = { List BodyPair };

    ghost view = { λ b. b.map.entries };

    ghost invariant = { IsMeasured };
}

// The length of the record of a body, if there is one.
fn len_of<A: Allocator>(body: &Option<Body<A>>) -> u128
    ensures { result ≡ unwrap_or (option_map (λ b. length (body_text b)) body.now) 0 }
{
    match body {
        Some(body) => body.record_len(),
        None => 0,
    }
}

impl<A: Allocator + Copy> Bodies<A> {
    // No bodies. Does not allocate until one is inserted.
    pub(crate) fn new(alloc: A) -> Self
        ensures { result ≡ [] }
    {
        Bodies {
            map: BTreeMap::new(alloc),
            records_len: 0,
        }
    }

    // Sets the body of a key. Only a new key can fail; then nothing has changed.
    pub(crate) fn insert(&mut self, key: Key, body: Body<A>) -> Result<(), AllocError>
        ensures ok { OnOk result (self.new ≡ insert_entry key_cmp self.old key body) }
        ensures err { OnErr result (self.new ≡ self.old) }
        ensures absent { OnErr result (lookup (is_at (key_cmp key)) self.old ≡ None) }
        ensures was_ordered { IsStrictlySortedBy key_cmp (keys_of self.old) }
    {
        let more = body.record_len();
        // `len` is called for its clause: there are fewer than 2^63 records, each of less than 2^33 bytes, so the sum fits.
        let _count = self.map.len();
        match self.map.insert(key, body) {
            Ok(old) => {
                self.records_len = self.records_len + more - len_of(&old);
                Ok(())
            }
            Err(_) => Err(AllocError),
        }
    }
}

// The body of a solution.
fn body_of<A: Allocator + Copy, B: Allocator>(
    alloc: A,
    solution: &Solution<B>,
) -> Result<Body<A>, AllocError>
    ensures { IfOk result (λ body. body ≡ (keyed_body solution.now).body) }
{
    // The field is read because only then is the invariant of the solution known here.
    let _key = solution.key;
    let bytes = solution.body(alloc)?;
    Body::of(bytes)
}

// Sets the body of a key in a map if it has none, or a worse one than the solution's. One search finds its place. Returns
// what the key had, or `None` if nothing changed.
fn offer<A: Allocator + Copy, B: Allocator>(
    alloc: A,
    map: &mut BodyMap<A>,
    key: Key,
    solution: &Solution<B>,
) -> Result<Option<Option<Body<A>>>, AllocError>
    ensures kept { OnErr result (map.new.entries ≡ map.old.entries) }
    ensures stays { IfOk result (λ r. IfNone r (map.new.entries ≡ map.old.entries)) }
    ensures held { IfOk result (λ r. IfNone r (MatchOption (lookup (is_at (key_cmp key)) map.old.entries) ⊥ (λ b. is_lt (rank_cmp (rank_of (keyed_body solution.now).body) (rank_of b)) ≡ false))) }
    ensures enters { IfOk result (λ r. IfSome r (λ _. map.new.entries ≡ insert_entry key_cmp map.old.entries key (keyed_body solution.now).body)) }
    ensures better { IfOk result (λ r. IfSome r (λ old. IfSome old (λ b. is_lt (rank_cmp (rank_of (keyed_body solution.now).body) (rank_of b)) ≡ true))) }
    ensures had { IfOk result (λ r. IfSome r (λ old. old ≡ lookup (is_at (key_cmp key)) map.old.entries)) }
{
    let Ok(entry) = map.entry(key) else {
        return Err(AllocError);
    };
    match entry {
        Entry::Occupied(mut place) => {
            if !place.get().is_worse_than(solution) {
                return Ok(None);
            }
            match body_of(alloc, solution) {
                Ok(body) => Ok(Some(Some(place.insert(body)))),
                Err(fault) => Err(fault),
            }
        }
        // By this call the map is as it was if there is no memory for the body.
        vacant => match vacant.or_try_insert_with(|| body_of(alloc, solution)) {
            Ok(_new) => Ok(Some(None)),
            Err(fault) => Err(fault),
        },
    }
}

impl<A: Allocator + Copy> Bodies<A> {
    // Sets the body of a key if it has none, or a worse one than the solution's. Returns what the key had, or `None` if
    // nothing changed.
    pub(crate) fn offer<B: Allocator>(
        &mut self,
        alloc: A,
        key: Key,
        solution: &Solution<B>,
    ) -> Result<Option<Option<Body<A>>>, AllocError>
        ensures kept { OnErr result (self.new ≡ self.old) }
        ensures stays { IfOk result (λ r. IfNone r (self.new ≡ self.old)) }
        ensures held { IfOk result (λ r. IfNone r (MatchOption (lookup (is_at (key_cmp key)) self.old) ⊥ (λ b. is_lt (rank_cmp (rank_of (keyed_body solution.now).body) (rank_of b)) ≡ false))) }
        ensures enters { IfOk result (λ r. IfSome r (λ _. self.new ≡ insert_entry key_cmp self.old key (keyed_body solution.now).body)) }
        ensures better { IfOk result (λ r. IfSome r (λ old. IfSome old (λ b. is_lt (rank_cmp (rank_of (keyed_body solution.now).body) (rank_of b)) ≡ true))) }
        ensures had { IfOk result (λ r. IfSome r (λ old. old ≡ lookup (is_at (key_cmp key)) self.old)) }
        ensures was_ordered { IsStrictlySortedBy key_cmp (keys_of self.old) }
    {
        let more = 4 + u128::from(solution.body_len());
        // As in `insert`.
        let _count = self.map.len();
        match offer(alloc, &mut self.map, key, solution) {
            Ok(Some(old)) => {
                self.records_len = self.records_len + more - len_of(&old);
                Ok(Some(old))
            }
            Ok(None) => Ok(None),
            Err(fault) => Err(fault),
        }
    }
}

impl<A: Allocator> Bodies<A> {
    // Removes a key, if it is present.
    pub(crate) fn remove(&mut self, key: Key)
        ensures { self.new ≡ remove_entry (is_at (key_cmp key)) self.old }
    {
        let old = self.map.remove(&key);
        self.records_len -= len_of(&old);
    }

    // The body of a key.
    pub(crate) fn get(&self, key: Key) -> Option<&Body<A>>
        ensures value { option_copied result ≡ lookup (is_at (key_cmp key)) self.now }
    {
        self.map.get(&key)
    }

    // All of them, in the order of the keys.
    pub(crate) fn map(&self) -> &BodyMap<A>
        ensures { result.now.entries ≡ self.now }
    {
        &self.map
    }

    // The length of all records in bytes.
    pub(crate) fn records_len(&self) -> u128
        ensures is { result ≡ length (flat_map body_text (values_of self.now)) }
        ensures small { result < 2 ^ 100 }
    {
        // As in `insert`.
        let _count = self.map.len();
        self.records_len
    }
}

impl<A: Allocator + Clone> Clone for Bodies<A> {
    ghost is_clone = { λ bodies copy. copy ≡ bodies };

    fn clone(&self) -> Result<Self, AllocError> {
        let map = self.map.clone()?;
        Ok(Bodies {
            map,
            records_len: self.records_len,
        })
    }
}
