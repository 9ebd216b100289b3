//! A keeper in memory.

ghost use Rattle.std.specs.Prelude.{◌≡◌, ◌≢◌, ◌++◌, ◌-◌, ◌==◌, ◌&&◌, ◌≤◌, [], true, false, None, Some, Err, OnOk, IfOk, length, drop};
ghost use Rattle.std.specs.Option.{option_map};
ghost use Rattle.tws_best.specs.Best.{collection_text};
ghost use Rattle.archive_table.specs.Keeper.{given, kept_by, last_kept, same_ruleset, texts_of};
ghost use Rattle.byte_output.specs.Failures.{Rises};

use crate::kept::Kept;
use archive_table::{KeepFault, Keeper};
use std::alloc::{AllocError, Allocator, Global};
use tws_best::Collection;
use tws_file::Ruleset;

/// A keeper that keeps in memory, with a ghost log of what it was given, for tests. It can be made to fail once.
#[derive(Drop)]
pub struct MemoryKeeper<A: Allocator + Copy = Global> {
    alloc: A,
    kept: Vec<Kept<A>, A>,
    // Which call from now fails; 0 if none does.
    fails_in: u64,
    failures: u64,
}

// Whether this entry is for this ruleset and was kept.
fn is_kept<A: Allocator>(one: &Kept<A>, ruleset: Ruleset) -> bool
    ensures { result ≡ (same_ruleset «ruleset» one.now.ruleset && one.now.ok) }
{
    one.ruleset == ruleset && one.ok
}

// The text of the last entry of this ruleset that was kept.
#[tactic(auto, using(crate::proofs::Lasts::last_at))]
fn last_of<A: Allocator>(kept: &[Kept<A>], ruleset: Ruleset) -> Option<&[u8]>
    ensures { option_map (λ t. t.now) result ≡ last_kept «ruleset» kept.now }
{
    let mut i = kept.len();
    while i > 0 {
        i -= 1;
        let one = &kept[i];
        if is_kept(one, ruleset) {
            return Some(one.text.as_slice());
        }
    }
    None
}

impl<A: Allocator + Copy> MemoryKeeper<A> {
    /// Returns a keeper that has nothing. Does not allocate.
    pub fn new(alloc: A) -> Self
        ensures kept { result.kept.items ≡ [] }
        ensures fails { result.fails_in ≡ 0 }
        ensures failures { result.failures ≡ 0 }
    {
        MemoryKeeper {
            alloc,
            kept: Vec::new(alloc),
            fails_in: 0,
            failures: 0,
        }
    }

    /// Returns a keeper that has these texts, as if they had been kept.
    ///
    /// # Errors
    ///
    /// Out of memory.
    pub fn with(
        alloc: A,
        lynx: Option<Vec<u8, A>>,
        ms: Option<Vec<u8, A>>,
    ) -> Result<Self, AllocError>
        ensures kept { IfOk result (λ k. k.kept.items ≡ given Ruleset.Lynx (texts_of lynx) ++ given Ruleset.Ms (texts_of ms)) }
        ensures fails { IfOk result (λ k. k.fails_in ≡ 0) }
        ensures failures { IfOk result (λ k. k.failures ≡ 0) }
    {
        let mut keeper = MemoryKeeper::new(alloc);
        keeper.add(Ruleset::Lynx, lynx)?;
        keeper.add(Ruleset::Ms, ms)?;
        Ok(keeper)
    }

    // Adds a text, if there is one.
    fn add(&mut self, ruleset: Ruleset, text: Option<Vec<u8, A>>) -> Result<(), AllocError>
        ensures kept { OnOk result (self.new.kept.items ≡ self.old.kept.items ++ given «ruleset» (texts_of text)) }
        ensures fails { self.new.fails_in ≡ self.old.fails_in }
        ensures failures { self.new.failures ≡ self.old.failures }
    {
        let Some(text) = text else {
            return Ok(());
        };
        match self.kept.push(Kept {
            ruleset,
            text,
            ok: true,
        }) {
            Ok(()) => Ok(()),
            Err(_) => Err(AllocError),
        }
    }

    /// Makes the `n`-th call of `keep` or `load` from now, counted from 1, return `Device`; none if `n` is 0.
    pub fn fail_at(&mut self, n: u64)
        ensures fails { self.new.fails_in ≡ n }
        ensures kept { self.new.kept ≡ self.old.kept }
        ensures failures { self.new.failures ≡ self.old.failures }
    {
        self.fails_in = n;
    }

    /// What it was given, in order.
    pub fn kept(&self) -> &[Kept<A>]
        ensures { result.now ≡ self.now.kept.items }
    {
        self.kept.as_slice()
    }

    // Counts a call. Returns whether it is the one that fails.
    fn count_call(&mut self) -> bool
        ensures fails { result ≡ (self.old.fails_in == 1) }
        ensures kept { self.new.kept ≡ self.old.kept }
        ensures count { self.new.fails_in ≡ self.old.fails_in - 1 }
        ensures more { self.old.failures ≤ self.new.failures }
        ensures failed { result ≡ true → Rises self.old.failures self.new.failures }
        ensures steady { result ≡ false → self.new.failures ≡ self.old.failures }
    {
        let fails = self.fails_in == 1;
        if fails {
            self.failures = self.failures.saturating_add(1);
        }
        self.fails_in = self.fails_in.saturating_sub(1);
        fails
    }
}

impl<A: Allocator + Copy> Keeper for MemoryKeeper<A> {
    ghost calls = { λ k. Some k.kept.items };

    ghost failed = { λ k. k.failures };

    fn keep<B: Allocator>(
        &mut self,
        ruleset: Ruleset,
        collection: &Collection<B>,
    ) -> Result<(), KeepFault>
        ensures calls { self.new.kept.items ≡ self.old.kept.items ++ kept_by result «ruleset» (collection_text collection.now) }
        ensures more { self.old.failures ≤ self.new.failures }
        ensures failed { result ≡ Err KeepFault.Device → Rises self.old.failures self.new.failures }
        ensures count { self.new.fails_in ≡ self.old.fails_in - 1 }
        ensures at { self.old.fails_in ≡ 1 → IfOk result (λ _. ⊥) }
        ensures alone { result ≡ Err KeepFault.Device → self.old.fails_in ≡ 1 }
        ensures steady { self.old.fails_in ≢ 1 → self.new.failures ≡ self.old.failures }
    {
        let fails = self.count_call();
        let mut text = Vec::new(self.alloc);
        let Ok(()) = collection.write_text(&mut text) else {
            return Err(KeepFault::Memory);
        };
        let one = Kept {
            ruleset,
            text,
            ok: !fails,
        };
        let Ok(()) = self.kept.push(one) else {
            return Err(KeepFault::Memory);
        };
        if fails {
            Err(KeepFault::Device)
        } else {
            Ok(())
        }
    }

    fn load<B: Allocator>(
        &mut self,
        alloc: B,
        ruleset: Ruleset,
    ) -> Result<Option<Vec<u8, B>>, KeepFault>
        ensures calls { self.new.kept ≡ self.old.kept }
        ensures text { IfOk result (λ text. texts_of text ≡ last_kept «ruleset» self.old.kept.items) }
        ensures more { self.old.failures ≤ self.new.failures }
        ensures failed { result ≡ Err KeepFault.Device → Rises self.old.failures self.new.failures }
        ensures count { self.new.fails_in ≡ self.old.fails_in - 1 }
        ensures at { self.old.fails_in ≡ 1 → result ≡ Err KeepFault.Device }
        ensures alone { result ≡ Err KeepFault.Device → self.old.fails_in ≡ 1 }
        ensures steady { self.old.fails_in ≢ 1 → self.new.failures ≡ self.old.failures }
    {
        if self.count_call() {
            return Err(KeepFault::Device);
        }
        let Some(text) = last_of(self.kept.as_slice(), ruleset) else {
            return Ok(None);
        };
        let mut copy = Vec::new(alloc);
        match copy.extend_from_slice(text) {
            Ok(()) => Ok(Some(copy)),
            Err(_) => Err(KeepFault::Memory),
        }
    }

    fn failures(&self) -> u64 {
        self.failures
    }
}
