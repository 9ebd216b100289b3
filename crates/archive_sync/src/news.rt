//! What two archives have to tell each other.

ghost use Rattle.std.specs.Prelude.{◌≡◌, IfOk, IfErr, option_map};
ghost use Rattle.archive_sync.specs.News.{IsCounted, IsTold, NewsFails, turned};

use crate::news_fault::NewsFault;
use crate::planning::plan;
use std::alloc::{Allocator, Global};
use std::marker::Model;
use tws_compare::{CompareFault, Counts, compare};
use tws_reader::read_file;

/// What two archives have to tell each other of a ruleset: what of each collection is better than what the other one has.
#[derive(Drop)]
pub struct News<A: Allocator = Global> {
    forth: Option<Vec<u8, A>>,
    back: Option<Vec<u8, A>>,
    counts: Counts,
}

impl<A: Allocator> Model for News<A> {
    ghost use Rattle.std.specs.Prelude.{option_map};
    ghost use Rattle.archive_sync.specs.News.{Told};

    ghost Value = { Told };

    ghost view = { λ n. record { forth = option_map (λ text. text.items) n.forth; back = option_map (λ text. text.items) n.back; counts = n.counts } };
}

// How the files of two texts compare.
fn counts_between<A: Allocator + Copy>(
    alloc: A,
    first: &[u8],
    second: &[u8],
) -> Result<Counts, NewsFault>
    ensures counted { IfOk result (IsCounted first.now second.now) }
    ensures fails { IfErr result (NewsFails first.now second.now) }
{
    let mine = match read_file(alloc, first) {
        Ok(mine) => mine,
        Err(fault) => return Err(NewsFault::First(fault)),
    };
    let theirs = match read_file(alloc, second) {
        Ok(theirs) => theirs,
        Err(fault) => {
            drop(mine);
            return Err(NewsFault::Second(fault));
        }
    };
    let rows = compare(alloc, &mine, &theirs);
    drop(mine);
    drop(theirs);
    match rows {
        Ok(rows) => Ok(Counts::of(&rows)),
        Err(CompareFault::Rulesets) => Err(NewsFault::Rulesets),
        Err(CompareFault::Memory) => Err(NewsFault::Memory),
    }
}

// The fault of the same two texts in the other order.
fn turned(fault: NewsFault) -> NewsFault
    ensures { result ≡ turned fault }
{
    match fault {
        NewsFault::First(fault) => NewsFault::Second(fault),
        NewsFault::Second(fault) => NewsFault::First(fault),
        NewsFault::Rulesets => NewsFault::Rulesets,
        NewsFault::Memory => NewsFault::Memory,
    }
}

impl<A: Allocator> News<A> {
    /// How the collections compare; the first one is mine.
    pub fn counts(&self) -> Counts
        ensures { result ≡ self.now.counts }
    {
        self.counts
    }

    /// What is better in the first collection, and what is in the second, each as the text of a solution file; `None` if
    /// nothing is.
    pub fn into_parts(self) -> (Option<Vec<u8, A>>, Option<Vec<u8, A>>)
        ensures forth { option_map (λ text. text.items) result.0 ≡ self.forth }
        ensures back { option_map (λ text. text.items) result.1 ≡ self.back }
    {
        (self.forth, self.back)
    }
}

impl<A: Allocator + Copy> News<A> {
    /// What these two texts have to tell each other.
    ///
    /// # Errors
    ///
    /// Those of `plan`.
    pub(crate) fn between(alloc: A, first: &[u8], second: &[u8]) -> Result<Self, NewsFault>
        ensures told { IfOk result (IsTold first.now second.now) }
        ensures fails { IfErr result (NewsFails first.now second.now) }
    {
        let counts = match counts_between(alloc, first, second) {
            Ok(counts) => counts,
            Err(fault) => return Err(fault),
        };
        let forth = match plan(alloc, first, second) {
            Ok(forth) => forth,
            Err(fault) => return Err(fault),
        };
        match plan(alloc, second, first) {
            Ok(back) => Ok(News {
                forth,
                back,
                counts,
            }),
            Err(fault) => Err(turned(fault)),
        }
    }
}
