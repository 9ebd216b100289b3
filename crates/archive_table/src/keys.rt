//! The slab keys of the live ports.

ghost use Rattle.std.specs.Prelude.{◌≡◌, ◌%◌, None, [], OnOk, OnErr, length};
ghost use Rattle.std.specs.Map.{lookup, remove_entry};
ghost use Rattle.std.specs.BTreeMap.{insert_entry};
ghost use Rattle.std.specs.Ordering.{nat_cmp};
ghost use Rattle.std.specs.BTreeMap.Range.{entries_between};
ghost use Rattle.std.specs.declared.ops.Bound.TheVariants.{Excluded, Unbounded};
ghost use Rattle.archive_table.specs.Table.{at_port, first_live};

use std::alloc::{AllocError, Allocator};
use std::collections::BTreeMap;
use std::marker::Model;
use std::ops::Bound;

// The number of slots of the cache, one for each port that can be live. Ports that share a slot are found in the map.
const CACHE_SIZE: u16 = 64;

// A constant, since the proof of `Keys::new` refers to it by name.
const EMPTY_CACHE: [Option<CachedPort>; CACHE_SIZE as usize] = [None; CACHE_SIZE as usize];

// A port and its key.
#[derive(Clone, Copy)]
struct CachedPort {
    port: u16,
    key: usize,
}

/// The slab key of each live port: an ordered map, and a direct-mapped cache that is searched first, since each datagram
/// needs a key.
#[derive(Drop)]
pub(crate) struct Keys<A: Allocator + Copy> {
    map: BTreeMap<u16, usize, A>,
    // In each slot the port that was added last of those with this slot; nothing if one was removed since.
    cache: [Option<CachedPort>; CACHE_SIZE as usize],
}

impl<A: Allocator + Copy> Model for Keys<A> {
    ghost use Rattle.std.specs.Prelude.{ℕ, List};

    ghost Value = { List (ℕ × ℕ) };

    ghost use Rattle.archive_table.specs.Keys.{entries_in, AreCached};

    ghost view = { entries_in };

    ghost invariant = { λ k. AreCached k.map.entries k.cache };
}

// The slot of a port.
fn slot_of(port: u16) -> usize
    ensures { result ≡ port % CACHE_SIZE }
{
    usize::from(port % CACHE_SIZE)
}

impl<A: Allocator + Copy> Keys<A> {
    /// Returns a map without ports. Does not allocate.
    pub(crate) fn new(alloc: A) -> Self
        ensures { result ≡ [] }
    {
        Keys {
            map: BTreeMap::new(alloc),
            cache: EMPTY_CACHE,
        }
    }

    /// The number of ports.
    pub(crate) fn len(&self) -> usize
        ensures { result ≡ length self.now }
    {
        self.map.len()
    }

    /// The key of a port; `None` if it is not live.
    pub(crate) fn get(&self, port: u16) -> Option<usize>
        ensures { result ≡ lookup (at_port port) self.now }
    {
        if let Some(cached) = self.cache[slot_of(port)]
            && cached.port == port
        {
            return Some(cached.key);
        }
        self.map.get(&port).copied()
    }

    /// Adds a port that is not live, with its key. On error nothing changes.
    pub(crate) fn insert(&mut self, port: u16, key: usize) -> Result<(), AllocError>
        requires free { lookup (at_port port) self.old ≡ None }
        ensures inserted { OnOk result (self.new ≡ insert_entry nat_cmp self.old port key) }
        ensures unchanged { OnErr result (self.new ≡ self.old) }
    {
        if self.map.insert(port, key).is_err() {
            return Err(AllocError);
        }
        self.cache[slot_of(port)] = Some(CachedPort { port, key });
        Ok(())
    }

    /// Removes a port. Returns its key, if it was live.
    pub(crate) fn remove(&mut self, port: u16) -> Option<usize>
        ensures key { result ≡ lookup (at_port port) self.old }
        ensures left { self.new ≡ remove_entry (at_port port) self.old }
    {
        // The slot may have another port, whose key is then found in the map.
        self.cache[slot_of(port)] = None;
        self.map.remove(&port)
    }

    /// The least port above `after`.
    pub(crate) fn above(&self, after: u16) -> Option<u16>
        ensures { result ≡ first_live (entries_between nat_cmp (Excluded after) Unbounded self.now) }
    {
        let mut above = self.map.range((Bound::Excluded(after), Bound::Unbounded));
        match above.next() {
            Some((port, _)) => Some(*port),
            None => None,
        }
    }
}
