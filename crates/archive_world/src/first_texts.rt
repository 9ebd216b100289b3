//! The texts that a keeper has before a replay.

ghost use Rattle.std.specs.Prelude.{◌≡◌, ◌++◌, IfOk, Some};
ghost use Rattle.std.specs.Option.{option_map};
ghost use Rattle.tws_file.specs.declared.«ruleset».Ruleset.TheVariants.{Lynx, Ms};
ghost use Rattle.archive_table.specs.Keeper.{Loads, given, last_kept, texts_of};

use archive_table::{KeepFault, Keeper};
use std::alloc::{Allocator, Global};
use tws_best::Collection;
use tws_file::Ruleset;

/// The texts that a keeper has before a replay. As a keeper, it has these and refuses all collections.
#[derive(Drop)]
pub(crate) struct FirstTexts<A: Allocator = Global> {
    pub(crate) lynx: Option<Vec<u8, A>>,
    pub(crate) ms: Option<Vec<u8, A>>,
}

impl<A: Allocator + Copy> FirstTexts<A> {
    /// Loads the texts of a keeper.
    ///
    /// # Errors
    ///
    /// Those of `Keeper::load`.
    pub(crate) fn load<K: Keeper>(alloc: A, keeper: &mut K) -> Result<Self, KeepFault>
        ensures lynx { IfOk result (λ t. Loads Lynx (K.calls keeper.old) (texts_of t.lynx)) }
        ensures ms { IfOk result (λ t. Loads Ms (K.calls keeper.old) (texts_of t.ms)) }
        ensures calls { K.calls keeper.new ≡ K.calls keeper.old }
    {
        let lynx = keeper.load(alloc, Ruleset::Lynx)?;
        let ms = keeper.load(alloc, Ruleset::Ms)?;
        Ok(FirstTexts { lynx, ms })
    }
}

impl<A: Allocator> FirstTexts<A> {
    // The text of this ruleset.
    fn text(&self, ruleset: Ruleset) -> Option<&[u8]>
        ensures { option_map (λ t. t.now) result ≡ last_kept «ruleset» (given Lynx (texts_of self.now.lynx) ++ given Ms (texts_of self.now.ms)) }
    {
        let text = match ruleset {
            Ruleset::Lynx => &self.lynx,
            Ruleset::Ms => &self.ms,
        };
        match text {
            Some(text) => Some(text.as_slice()),
            None => None,
        }
    }
}

impl<A: Allocator> Keeper for FirstTexts<A> {
    ghost calls = { λ k. Some (given Lynx (texts_of k.lynx) ++ given Ms (texts_of k.ms)) };

    ghost failed = { λ _. 0 };

    fn keep<B: Allocator>(
        &mut self,
        _ruleset: Ruleset,
        _collection: &Collection<B>,
    ) -> Result<(), KeepFault> {
        Err(KeepFault::Memory)
    }

    fn load<B: Allocator>(
        &mut self,
        alloc: B,
        ruleset: Ruleset,
    ) -> Result<Option<Vec<u8, B>>, KeepFault> {
        let Some(text) = self.text(ruleset) else {
            return Ok(None);
        };
        let mut copy = Vec::new(alloc);
        match copy.extend_from_slice(text) {
            Ok(()) => Ok(Some(copy)),
            Err(_) => Err(KeepFault::Memory),
        }
    }

    fn failures(&self) -> u64 {
        0
    }
}
