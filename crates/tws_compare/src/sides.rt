//! The best solutions of both files, by level.

ghost use Rattle.std.specs.Prelude.{◌≡◌, ◌≤◌, length, IfOk};
ghost use Rattle.tws_best.specs.Rank.{rank_of, rank_cmp, ticks_of};
ghost use Rattle.tws_file.specs.Record.{record_of};
ghost use Rattle.tws_compare.specs.Standing.{standing_by, standing_at};
ghost use Rattle.tws_compare.specs.Compare.{improves, sides_of};

use crate::standing::Standing;
use byteorder::{ByteOrder, LittleEndian};
use std::alloc::{AllocError, Allocator};
use std::cmp::Ordering;
use std::marker::Model;
use tws_best::{Collection, Rank};
use tws_file::{Key, Record, TwsFile};

// The ticks in a solution's body.
fn ticks_in(body: &[u8]) -> u32
    requires { 16 ≤ length body.now }
    ensures { result ≡ ticks_of body.now }
{
    LittleEndian::read_u32(&body[12..])
}

// How two bodies compare by rank.
fn standing_by_rank(mine: &[u8], theirs: &[u8]) -> Standing
    requires mine { 16 ≤ length mine.now }
    requires theirs { 16 ≤ length theirs.now }
    ensures { result ≡ standing_by (rank_cmp (rank_of mine.now) (rank_of theirs.now)) (ticks_of mine.now) (ticks_of theirs.now) }
{
    match Rank::of(mine).cmp(&Rank::of(theirs)) {
        Ordering::Less => Standing::MineBetter {
            ticks: ticks_in(theirs).saturating_sub(ticks_in(mine)),
        },
        Ordering::Equal => Standing::Equal,
        Ordering::Greater => Standing::TheirsBetter {
            ticks: ticks_in(mine).saturating_sub(ticks_in(theirs)),
        },
    }
}

// The best solutions of two files, mine and theirs.
#[derive(Drop)]
pub(crate) struct Sides<A: Allocator> {
    mine: Collection<A>,
    theirs: Collection<A>,
}

impl<A: Allocator> Model for Sides<A> {
    ghost use Rattle.tws_compare.specs.Standing.{TwoSides};

    ghost Value = { TwoSides };

    ghost use Rattle.tws_compare.specs.Sides.{two_sides, AreCollected};

    ghost view = { two_sides };

    ghost invariant = { AreCollected };
}

impl<A: Allocator + Copy> Sides<A> {
    // The best solutions of these files.
    pub(crate) fn load<B: Allocator, C: Allocator>(
        alloc: A,
        mine: &TwsFile<B>,
        theirs: &TwsFile<C>,
    ) -> Result<Self, AllocError>
        ensures { IfOk result (λ sides. sides ≡ sides_of mine.now theirs.now) }
    {
        let mine = Collection::load(alloc, mine)?;
        let theirs = Collection::load(alloc, theirs)?;
        Ok(Sides { mine, theirs })
    }
}

impl<A: Allocator> Sides<A> {
    // How they compare at a level.
    pub(crate) fn standing(&self, key: Key) -> Standing
        ensures { result ≡ standing_at self.now key }
    {
        match (self.mine.get(key), self.theirs.get(key)) {
            (Some(mine), Some(theirs)) => standing_by_rank(mine, theirs),
            (Some(_), None) => Standing::OnlyMine,
            (None, Some(_)) => Standing::OnlyTheirs,
            (None, None) => Standing::Equal,
        }
    }

    // Whether a record is a solution of a level where mine is better or theirs has none.
    pub(crate) fn improves<B: Allocator>(&self, one: &Record<B>) -> bool
        ensures { result ≡ improves self.now (record_of one.now) }
    {
        match one {
            Record::Solution(solution) => self.standing(solution.key).is_improvement(),
            Record::Pad | Record::Set { .. } | Record::Bare { .. } => false,
        }
    }
}
