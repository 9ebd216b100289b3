//! The live ports of a server, and what is at each.

ghost use Rattle.std.specs.Prelude.{◌≡◌, None, Some, [], OnOk, OnErr, length, is_some, option_copied};
ghost use Rattle.std.specs.Option.{option_copied_mut};
ghost use Rattle.std.specs.Map.{lookup, remove_entry};
ghost use Rattle.std.specs.BTreeMap.{insert_entry};
ghost use Rattle.std.specs.Ordering.{nat_cmp};
ghost use Rattle.std.specs.BTreeMap.Range.{entries_between};
ghost use Rattle.std.specs.declared.ops.Bound.TheVariants.{Excluded, Unbounded};
ghost use Rattle.archive_table.specs.Table.{at_port, first_live};

use crate::keys::Keys;
use slab::Slab;
use std::alloc::{AllocError, Allocator};
use std::marker::Model;

/// The value at each live port: the port leads to a key, and the key to a slot of a slab.
#[derive(Drop)]
pub(crate) struct Ports<T, A: Allocator + Copy> {
    keys: Keys<A>,
    slots: Slab<T, A>,
}

impl<T, A: Allocator + Copy> Model for Ports<T, A> {
    ghost use Rattle.std.specs.Prelude.{ℕ, List};
    ghost use Rattle.slab.specs.Slab.{get};
    ghost use Rattle.archive_table.specs.Ports.{found_at, AreHeld};

    ghost Value = { List (ℕ × T) };

    ghost view = { λ p. found_at (get p.slots) p.keys };

    ghost invariant = { λ p. AreHeld p.keys p.slots };
}

impl<T: Drop, A: Allocator + Copy> Ports<T, A> {
    ghost use Rattle.std.specs.Borrow.{sem};
    ghost use Rattle.archive_table.specs.Lends.{lends_get};

    /// Returns one without live ports. Does not allocate.
    pub(crate) fn new(alloc: A) -> Self
        ensures { result ≡ [] }
    {
        Ports {
            keys: Keys::new(alloc),
            slots: Slab::new(alloc),
        }
    }

    /// The number of live ports.
    #[tactic(auto, using(crate::proofs::Found::length_found))]
    pub(crate) fn len(&self) -> usize
        ensures { result ≡ length self.now }
    {
        self.keys.len()
    }

    /// Whether a port is live.
    pub(crate) fn contains(&self, port: u16) -> bool
        ensures { result ≡ is_some (lookup (at_port port) self.now) }
    {
        self.get(port).is_some()
    }

    /// The value at a port.
    #[tactic(auto, using(crate::proofs::Found::lookup_found))]
    pub(crate) fn get(&self, port: u16) -> Option<&T>
        ensures { option_copied result ≡ lookup (at_port port) self.now }
    {
        let key = self.keys.get(port)?;
        self.slots.get(key)
    }

    /// Puts `value` at a port that is not live. On error nothing changes.
    #[tactic(auto, using(crate::proofs::Found::lookup_found))]
    pub(crate) fn insert(&mut self, port: u16, value: T) -> Result<(), AllocError>
        requires free { lookup (at_port port) self.old ≡ None }
        ensures inserted { OnOk result (self.new ≡ insert_entry nat_cmp self.old port value) }
        ensures unchanged { OnErr result (self.new ≡ self.old) }
    {
        self.slots.reserve(1)?;
        let key = self.slots.vacant_key();
        self.keys.insert(port, key)?;
        self.slots.insert_reserved(value);
        Ok(())
    }

    /// The value at a port, to be written.
    #[tactic(auto, using(crate::proofs::Found::lookup_found))]
    pub(crate) fn get_mut(&mut self, port: u16) -> Option<&mut T>
        ensures* writes_back { sem 𝓛 (lends_get T.row A.row A.Allocator self.entry port result) }
        ensures value { option_copied_mut result ≡ lookup (at_port port) self.old }
    {
        let key = self.keys.get(port)?;
        Some(&mut self.slots[key])
    }

    /// The least live port above `after`.
    #[tactic(auto, using(crate::proofs::Found::first_above))]
    pub(crate) fn above(&self, after: u16) -> Option<u16>
        ensures { result ≡ first_live (entries_between nat_cmp (Excluded after) Unbounded self.now) }
    {
        self.keys.above(after)
    }

    /// Removes the value at a port, which is then not live.
    pub(crate) fn remove(&mut self, port: u16)
        ensures { self.new ≡ remove_entry (at_port port) self.old }
    {
        if let Some(key) = self.keys.remove(port) {
            self.slots.remove(key);
        }
    }
}
