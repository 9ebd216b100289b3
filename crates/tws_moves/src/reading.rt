//! Reading moves from bytes.

ghost use Rattle.std.specs.Prelude.{◌≡◌, ℕ, ◌+◌, ◌-◌, ◌*◌, ◌<◌, ◌≤◌, ◌^◌, List, [], ◌∷◌, ◌++◌, length, OnOk, IfOk, IfErr, IfSome, IfNone, MatchResult};
ghost use Rattle.tws_moves.specs.declared.moves_fault.MovesFault.TheVariants as fault;
ghost use Rattle.tws_moves.specs.declared.layout.Layout.TheVariants as layout;
ghost use Rattle.tws_moves.specs.Move.{Move as Plain, IsMove, IsTimed, moves_from, tick_after};
ghost use Rattle.tws_moves.specs.Spelling.{IsPiece, waits_of, layout_waits, Spells, MovesFail};
ghost use Rattle.tws_moves.specs.Steps.{IsPieceCut};

use crate::act::Act;
use crate::layout::{Layout, piece_length};
use crate::moves::Move;
use crate::moves_fault::MovesFault;
use crate::number::{bits, number_of};
use crate::wait::Wait;
use std::alloc::{AllocError, Allocator};

// The piece that the bytes begin with, and the bytes after it; `None` if they do not begin with a whole piece.
pub(crate) fn split_piece(bytes: &[u8]) -> Option<(&[u8], &[u8])>
    ensures piece { IfSome result (λ r. IsPiece r.0.now) }
    ensures split { IfSome result (λ r. bytes.now ≡ r.0.now ++ r.1.now) }
    ensures cut { IfNone result (IsPieceCut bytes.now) }
{
    let [first, ..] = bytes else {
        return None;
    };
    let length = piece_length(*first);
    if bytes.len() < length {
        return None;
    }
    Some(bytes.split_at(length))
}

// Appends a move. Returns the first tick at which a later one can be made.
fn push<A: Allocator>(moves: &mut Vec<Move, A>, at: u64, act: Act) -> Result<u64, AllocError>
    requires fits { IsMove (record { at = at; act = act }) }
    requires room { at + 1 < 2 ^ 64 }
    ensures moves { OnOk result (moves.new.items ≡ moves.old.items ++ record { at = at; act = act } ∷ []) }
    ensures next { IfOk result (λ n. n ≡ at + 1) }
{
    moves.push(Move { at, act })?;
    Ok(at + 1)
}

// Appends three steps, each of which waits three ticks.
fn push_three<A: Allocator>(
    moves: &mut Vec<Move, A>,
    next: u64,
    number: u64,
) -> Result<u64, AllocError>
    requires { next < 2 ^ 63 }
    ensures moves { OnOk result (moves.new.items ≡ moves.old.items ++ moves_from next (layout_waits layout.ThreeSteps number)) }
    ensures next { IfOk result (λ n. n ≡ next + 12) }
{
    let next = push(moves, next + 3, Act::Step(bits(2, 2, number) as u8))?;
    let next = push(moves, next + 3, Act::Step(bits(4, 2, number) as u8))?;
    push(moves, next + 3, Act::Step(bits(6, 2, number) as u8))
}

// Appends the moves of a piece, the first of which can be made from the tick `next` on. Returns the first tick at which
// a later one can be made.
fn push_piece<A: Allocator>(
    moves: &mut Vec<Move, A>,
    next: u64,
    piece: &[u8],
) -> Result<u64, AllocError>
    requires piece { IsPiece piece.now }
    requires room { next < 2 ^ 63 }
    ensures moves { OnOk result (moves.new.items ≡ moves.old.items ++ moves_from next (waits_of piece.now)) }
    ensures next { IfOk result (λ n. n ≡ tick_after next (waits_of piece.now)) }
    ensures bound { IfOk result (λ n. n ≤ next + length piece.now * 2 ^ 27) }
{
    let number = number_of(piece);
    match Wait::in_layout(Layout::of(piece[0]), number) {
        Some(wait) => push(moves, next + wait.ticks, wait.act),
        None => push_three(moves, next, number),
    }
}

// The fault of bytes that are cut where `rest` begins.
pub(crate) fn cut_before(bytes: &[u8], rest: &[u8]) -> MovesFault
    requires within { length rest.now ≤ length bytes.now }
    requires short { length bytes.now < 2 ^ 32 }
    ensures { result ≡ fault.Cut (length bytes.now - length rest.now) }
{
    let at = (bytes.len() - rest.len()) as u64;
    MovesFault::Cut { at }
}

/// Returns the moves that the bytes spell. `bytes` has at most 4,294,967,295 bytes.
///
/// # Errors
///
/// `Cut` if the bytes end inside a move, or `Memory` if an allocation was refused.
pub fn read_moves<A: Allocator>(alloc: A, bytes: &[u8]) -> Result<Vec<Move, A>, MovesFault>
    requires { length bytes.now < 2 ^ 32 }
    ensures read { IfOk result (λ moves. Spells bytes.now moves.items) }
    ensures timed { IfOk result (λ moves. IsTimed moves.items) }
    // Bytes that spell moves are read, unless an allocation is refused.
    ensures accepts { (moves : List Plain) → Spells bytes.now moves → MatchResult result (λ r. r.items ≡ moves) (λ e. e ≡ fault.Memory) }
    ensures fault { IfErr result (MovesFail bytes.now) }
{
    let mut moves = Vec::new(alloc);
    let mut next = 0;
    let mut rest = bytes;
    while let Some((piece, after)) = split_piece(rest) {
        next = push_piece(&mut moves, next, piece)?;
        rest = after;
    }
    if !rest.is_empty() {
        return Err(cut_before(bytes, rest));
    }
    Ok(moves)
}
