//! Steps that wait for others to share their byte.

ghost use Rattle.std.specs.Prelude.{◌≡◌, ◌<◌, [], ◌∷◌, ◌++◌, IfOk, OnOk};
ghost use Rattle.tws_moves.specs.Shortest.{waits_bytes};
ghost use Rattle.tws_moves.specs.Steps.{IsPending, Packs, pending_waits, plain_step};

use crate::piece::Piece;
use std::alloc::{AllocError, Allocator};

/// Directions of plain steps that are not written yet, since they may share a byte with the steps that follow. A plain
/// step is one in direction 0 to 3 that waits three ticks.
#[derive(Clone, Copy)]
pub(crate) enum Pending {
    None,
    One(u8),
    Two(u8, u8),
}

impl Pending {
    /// Adds a plain step. Three of them are written as one byte.
    pub(crate) fn add<A: Allocator>(
        self,
        packed: &mut Vec<u8, A>,
        direction: u8,
    ) -> Result<Self, AllocError>
        requires pending { IsPending self }
        requires step { direction < 4 }
        ensures { IfOk result (Packs packed.old.items self (plain_step direction ∷ []) packed.new.items) }
    {
        Ok(match self {
            Pending::None => Pending::One(direction),
            Pending::One(first) => Pending::Two(first, direction),
            Pending::Two(first, second) => {
                Piece::of_three(first, second, direction).push_to(packed)?;
                Pending::None
            }
        })
    }

    /// Writes each of the steps alone. Usually there are none; inlining saves the call then.
    #[inline(always)]
    pub(crate) fn push_to<A: Allocator>(self, packed: &mut Vec<u8, A>) -> Result<(), AllocError>
        requires { IsPending self }
        ensures { OnOk result (packed.new.items ≡ packed.old.items ++ waits_bytes (pending_waits self)) }
    {
        match self {
            Pending::None => {}
            Pending::One(first) => Piece::plain(first).push_to(packed)?,
            Pending::Two(first, second) => {
                Piece::plain(first).push_to(packed)?;
                Piece::plain(second).push_to(packed)?;
            }
        }
        Ok(())
    }
}
