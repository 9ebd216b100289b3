//! A move, and how moves are read.

ghost use Rattle.std.specs.Prelude.{◌↔◌, IsTrue};
ghost use Rattle.tws_moves.specs.Move.{IsTimed};

use crate::act::Act;
use std::marker::Model;

/// An act, and the tick at which it is done. A direction is at most 7, and a code at most 511.
#[derive(Clone, Copy, Debug, PartialEq, Eq)]
pub struct Move {
    /// The tick, counted from 0.
    pub at: u64,
    /// What is done then.
    pub act: Act,
}

impl Model for Move {
    ghost use Rattle.tws_moves.specs.Move.{Move as Plain, IsMove};

    ghost Value = { Plain };

    ghost view = { λ m. record { at = m.at; act = m.act } };

    ghost inverse = { λ m. record { at = m.at; act = m.act } };

    ghost invariant = { λ m. IsMove (record { at = m.at; act = m.act }) };
}

/// Whether each move but the first is at a greater tick than the one before.
pub fn is_timed(moves: &[Move]) -> bool
    ensures { IsTrue result ↔ IsTimed moves.now }
{
    for i in 1..moves.len() {
        let (before, this) = (&moves[i - 1], &moves[i]);
        if this.at <= before.at {
            return false;
        }
    }
    true
}
