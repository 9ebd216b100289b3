//! An act and the time before it.

ghost use Rattle.std.specs.Prelude.{◌≡◌, ℕ, ◌+◌, ◌<◌, ◌≤◌, ◌^◌, [], ◌∷◌, length, slice_index_or, IfSome, IfNone};
ghost use Rattle.tws_moves.specs.declared.layout.Layout.TheVariants as layouts;
ghost use Rattle.tws_moves.specs.Bytes.{bits};
ghost use Rattle.tws_moves.specs.Move.{IsTimed, waits_from};
ghost use Rattle.tws_moves.specs.Spelling.{layout_waits};
ghost use Rattle.tws_moves.specs.Shortest.{is_plain, direction_of};

use crate::act::Act;
use crate::layout::Layout;
use crate::moves::Move;
use crate::number::bits;
use std::marker::Model;

/// An act, and how many ticks go by before it, counted from the first tick at which it could have been made.
#[derive(Clone, Copy)]
pub(crate) struct Wait {
    pub(crate) ticks: u64,
    pub(crate) act: Act,
}

impl Model for Wait {
    ghost use Rattle.tws_moves.specs.Move.{Wait as Plain, IsAct};

    ghost Value = { Plain };

    ghost view = { λ w. record { ticks = w.ticks; act = w.act } };

    ghost inverse = { λ w. record { ticks = w.ticks; act = w.act } };

    ghost invariant = { λ w. IsAct w.act };
}

impl Wait {
    /// The wait that is alone in a piece of this layout with the value `number`; `None` if the piece holds three steps.
    pub(crate) fn in_layout(layout: Layout, number: u64) -> Option<Self>
        requires { number < 2 ^ 40 }
        ensures one { IfSome result (λ w. layout_waits layout number ≡ w ∷ []) }
        ensures three { IfNone result (layout ≡ layouts.ThreeSteps) }
    {
        let (ticks, act) = match layout {
            Layout::ThreeSteps => return None,
            Layout::ShortStep => (bits(5, 3, number), step(2, 3, number)),
            Layout::MiddleStep => (bits(5, 11, number), step(2, 3, number)),
            Layout::LongStep => (bits(5, 27, number), step(2, 2, number)),
            Layout::Code => (number >> 14, Act::Code(bits(5, 9, number) as u16)),
        };
        Some(Wait { ticks, act })
    }

    /// The wait of the move at `index`.
    pub(crate) fn of(moves: &[Move], index: usize) -> Self
        requires timed { IsTimed moves.now }
        requires within { index < length moves.now }
        ensures { result ≡ slice_index_or (waits_from 0 moves.now) index result }
    {
        let this = &moves[index];
        let act = this.act;
        if index == 0 {
            return Wait {
                ticks: this.at,
                act,
            };
        }
        let before = &moves[index - 1];
        Wait {
            ticks: this.at - before.at - 1,
            act,
        }
    }

    /// Whether this is a plain step: one in direction 0 to 3 that waits three ticks.
    pub(crate) fn is_plain(self) -> bool
        ensures { result ≡ is_plain self }
    {
        match self.act {
            Act::Step(direction) => direction < 4 && self.ticks == 3,
            Act::Code(_) => false,
        }
    }

    /// A step's direction; 0 for a code.
    pub(crate) fn direction(self) -> u8
        ensures { result ≡ direction_of self.act }
    {
        match self.act {
            Act::Step(direction) => direction,
            Act::Code(_) => 0,
        }
    }
}

// The step whose direction is the `count` bits of `number` from bit `low` on.
fn step(low: u32, count: u32, number: u64) -> Act
    requires { (low + count < 64) × (count ≤ 3) }
    ensures { result ≡ Act.Step (bits low count number) }
{
    Act::Step(bits(low, count, number) as u8)
}
