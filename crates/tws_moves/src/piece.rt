//! A piece of bytes to write.

ghost use Rattle.std.specs.Prelude.{◌≡◌, ℕ, ◌+◌, ◌*◌, ◌<◌, ◌≤◌, ◌^◌, ◌&&◌, ◌++◌, drop, length, slice_index_or, OnOk, IfSome, IfNone};
ghost use Rattle.tws_moves.specs.Bytes.{little_bytes};
ghost use Rattle.tws_moves.specs.Move.{Wait as PlainWait, IsTimed, waits_from};
ghost use Rattle.tws_moves.specs.Shortest.{act_bytes, alone, code_more, is_plain};
ghost use Rattle.tws_moves.specs.Steps.{HasLayout, IsNextPiece, BeginsAlone, plain_step};

use crate::act::Act;
use crate::moves::Move;
use crate::wait::Wait;
use std::alloc::{AllocError, Allocator};

/// A piece to write: its bytes as one little-endian number, how many bytes it has, and how many moves it holds.
#[derive(Clone, Copy)]
pub(crate) struct Piece {
    pub(crate) number: u64,
    pub(crate) length: usize,
    pub(crate) moves: usize,
}

impl Piece {
    // A step in the shortest layout that holds its wait.
    fn of_step(ticks: u64, direction: u8) -> Self
        requires { ticks < 2 ^ 27 }
        ensures bytes { little_bytes result.length result.number ≡ act_bytes ticks (Act.Step direction) }
        ensures moves { result.moves ≡ 1 }
    {
        let fields = 4 * u64::from(direction) + (ticks << 5);
        // The low bits, which select the layout, and its length in bytes.
        let (layout, length) = if ticks < 1 << 3 {
            (1, 1)
        } else if ticks < 1 << 11 {
            (2, 2)
        } else {
            (3, 4)
        };
        Piece {
            number: layout + fields,
            length,
            moves: 1,
        }
    }

    // A code in the shortest layout that holds its wait.
    fn of_code(ticks: u64, code: u16) -> Self
        requires { ticks < 2 ^ 26 }
        ensures bytes { little_bytes result.length result.number ≡ act_bytes ticks (Act.Code code) }
        ensures moves { result.moves ≡ 1 }
    {
        let more = code_more(ticks);
        // Bits 0, 1 and 4 select the layout; bits 2 and 3 encode its length.
        let layout = 19 + 4 * more as u64;
        Piece {
            number: layout + (u64::from(code) << 5) + (ticks << 14),
            length: 2 + more,
            moves: 1,
        }
    }

    /// A plain step alone, in this direction.
    pub(crate) fn plain(direction: u8) -> Self
        ensures { little_bytes result.length result.number ≡ alone (plain_step direction) }
    {
        Piece::of_step(3, direction)
    }

    /// Three plain steps in these directions, in one byte.
    pub(crate) fn of_three(first: u8, second: u8, third: u8) -> Self
        ensures number { result.number ≡ 4 * first + 16 * second + 64 * third }
        ensures length { result.length ≡ 1 }
        ensures moves { result.moves ≡ 3 }
    {
        Piece {
            number: 4 * u64::from(first) + 16 * u64::from(second) + 64 * u64::from(third),
            length: 1,
            moves: 3,
        }
    }

    /// The wait alone, in the shortest layout that holds it; `None` if no layout does.
    pub(crate) fn alone(wait: Wait) -> Option<Self>
        ensures held { IfSome result (λ _. HasLayout wait) }
        ensures bytes { IfSome result (λ p. little_bytes p.length p.number ≡ alone wait) }
        ensures moves { IfSome result (λ p. p.moves ≡ 1) }
        ensures none { IfNone result (HasLayout wait → ⊥) }
    {
        if wait.ticks >= wait.act.ticks_limit() {
            return None;
        }
        Some(match wait.act {
            Act::Step(direction) => Piece::of_step(wait.ticks, direction),
            Act::Code(code) => Piece::of_code(wait.ticks, code),
        })
    }

    // The next three moves in one byte; `None` unless they are three plain steps.
    fn three_steps(moves: &[Move], index: usize) -> Option<Self>
        requires timed { IsTimed moves.now }
        requires within { index < length moves.now }
        ensures next { IfSome result (λ p. IsNextPiece (drop index (waits_from 0 moves.now)) p.length p.number p.moves) }
        ensures apart { IfNone result (BeginsAlone (drop index (waits_from 0 moves.now))) }
    {
        if moves.len() - index < 3 {
            return None;
        }
        let first = Wait::of(moves, index);
        let second = Wait::of(moves, index + 1);
        let third = Wait::of(moves, index + 2);
        if !are_plain(first, second, third) {
            return None;
        }
        Some(Piece::of_three(first.direction(), second.direction(), third.direction()))
    }

    /// The piece that begins with the move at `index`; `None` if no layout holds its wait.
    pub(crate) fn next(moves: &[Move], index: usize) -> Option<Self>
        requires timed { IsTimed moves.now }
        requires within { index < length moves.now }
        ensures next { IfSome result (λ p. IsNextPiece (drop index (waits_from 0 moves.now)) p.length p.number p.moves) }
        ensures none { IfNone result ((w : PlainWait) → HasLayout (slice_index_or (waits_from 0 moves.now) index w) → ⊥) }
    {
        let wait = Wait::of(moves, index);
        if !wait.is_plain() {
            return Piece::alone(wait);
        }
        if let Some(piece) = Piece::three_steps(moves, index) {
            return Some(piece);
        }
        Piece::alone(wait)
    }

    // Appends the bytes by writing eight at once, of which the first are kept.
    fn push_first<A: Allocator>(self, bytes: &mut Vec<u8, A>) -> Result<(), AllocError>
        requires { self.length ≤ 8 }
        ensures { OnOk result (bytes.new.items ≡ bytes.old.items ++ little_bytes self.length self.number) }
    {
        let before = bytes.len();
        bytes.extend_from_slice(&self.number.to_le_bytes())?;
        bytes.truncate(before + self.length);
        Ok(())
    }

    /// Appends the bytes. Several are written at once if there is room for eight: a loop with a varying number of
    /// iterations is often mispredicted, and slower.
    pub(crate) fn push_to<A: Allocator>(self, bytes: &mut Vec<u8, A>) -> Result<(), AllocError>
        ensures { OnOk result (bytes.new.items ≡ bytes.old.items ++ little_bytes self.length self.number) }
    {
        if 1 < self.length && self.length <= 8 && bytes.capacity() - bytes.len() >= 8 {
            return self.push_first(bytes);
        }
        let mut rest = self.number;
        for _ in 0..self.length {
            bytes.push((rest % 256) as u8)?;
            rest /= 256;
        }
        Ok(())
    }
}

// How many bytes a code's piece has after its first two.
fn code_more(ticks: u64) -> usize
    ensures { result ≡ code_more ticks }
{
    if ticks < 1 << 2 {
        0
    } else if ticks < 1 << 10 {
        1
    } else if ticks < 1 << 18 {
        2
    } else {
        3
    }
}

// Whether one byte can hold all three.
fn are_plain(first: Wait, second: Wait, third: Wait) -> bool
    ensures { result ≡ (is_plain first && is_plain second && is_plain third) }
{
    first.is_plain() && second.is_plain() && third.is_plain()
}
