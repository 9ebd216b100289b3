//! Counting moves.

ghost use Rattle.std.specs.Prelude.{◌≡◌, ℕ, ◌+◌, ◌*◌, ◌<◌, ◌≤◌, ◌^◌, List, length, take, Ok, IfOk, IfErr, IfSome, IfNone};
ghost use Rattle.std.specs.List.{AllByRecursion, flat_map};
ghost use Rattle.tws_moves.specs.Move.{Move as Plain};
ghost use Rattle.tws_moves.specs.Spelling.{IsPiece, waits_of, Spells, IsCount, IsCut};
ghost use Rattle.tws_moves.specs.Steps.{CountsSoFar, IsPieceCut, first_set, singles};

use crate::layout::Layout;
use crate::moves_fault::MovesFault;
use crate::reading::{cut_before, split_piece};
use std::simd::prelude::*;

// How many bytes are tested at once. In real files nine out of ten pieces are one byte long, in runs of about eight.
const LANES: usize = 16;

// The position of the lowest set bit, or LANES if none is set.
#[inline(always)]
fn first_set(mask: u64) -> usize
    ensures { result ≡ first_set mask LANES }
{
    if mask == 0 {
        LANES
    } else {
        mask.trailing_zeros() as usize
    }
}

// How many of the first 16 bytes are one-byte pieces, up to the first that is not, and how many moves they hold.
#[inline(always)]
fn count_short(bytes: &[u8]) -> (usize, u64)
    requires { LANES ≤ length bytes.now }
    ensures within { result.0 ≤ LANES }
    ensures bound { result.1 ≤ result.0 * 3 }
    ensures pieces { AllByRecursion IsPiece (singles (take result.0 bytes.now)) }
    ensures count { result.1 ≡ length (flat_map waits_of (singles (take result.0 bytes.now))) }
{
    let lanes = u8x16::from_slice(bytes);
    let longer = (lanes & u8x16::splat(2)).simd_eq(u8x16::splat(2));
    let of_three = (lanes & u8x16::splat(3)).simd_eq(u8x16::splat(0));
    let run = first_set(longer.to_bitmask());
    let threes = (of_three.to_bitmask() % (1 << run as u32)).count_ones();
    (run, run as u64 + 2 * u64::from(threes))
}

// How many moves a piece holds.
fn count_piece(piece: &[u8]) -> u64
    requires { IsPiece piece.now }
    ensures count { result ≡ length (waits_of piece.now) }
    ensures bound { result ≤ length piece.now * 3 }
{
    Layout::of(piece[0]).moves()
}

// Skips at most 16 one-byte pieces at the start of the bytes. Returns how many moves they hold, and the bytes after
// them.
#[inline(always)]
fn skip_short(bytes: &[u8]) -> (u64, &[u8])
    ensures counts { CountsSoFar bytes.now result.1.now result.0 }
    ensures bound { result.0 + length result.1.now * 3 ≤ length bytes.now * 3 }
{
    if bytes.len() < LANES {
        return (0, bytes);
    }
    let (run, count) = count_short(bytes);
    (count, &bytes[run..])
}

// Counts the moves of one or more pieces at the start of the bytes. Returns the count and the bytes after these pieces,
// or `None` if the bytes do not begin with a whole piece.
#[inline(always)]
fn count_next(bytes: &[u8]) -> Option<(u64, &[u8])>
    requires { length bytes.now < 2 ^ 32 }
    ensures counts { IfSome result (λ r. CountsSoFar bytes.now r.1.now r.0) }
    ensures bound { IfSome result (λ r. r.0 + length r.1.now * 3 ≤ length bytes.now * 3) }
    ensures shorter { IfSome result (λ r. length r.1.now < length bytes.now) }
    ensures cut { IfNone result (IsPieceCut bytes.now) }
{
    let (count, rest) = skip_short(bytes);
    if let Some((piece, after)) = split_piece(rest) {
        return Some((count + count_piece(piece), after));
    }
    if rest.len() < bytes.len() {
        Some((count, rest))
    } else {
        None
    }
}

/// Returns how many moves the bytes spell, in agreement with `read_moves`. `bytes` has at most 4,294,967,295 bytes.
/// Does not allocate.
///
/// # Errors
///
/// `Cut` if the bytes end inside a move.
pub fn check_moves(bytes: &[u8]) -> Result<u64, MovesFault>
    requires { length bytes.now < 2 ^ 32 }
    ensures counts { IfOk result (IsCount bytes.now) }
    ensures accepts { (moves : List Plain) → Spells bytes.now moves → result ≡ Ok (length moves) }
    ensures fault { IfErr result (IsCut bytes.now) }
{
    let mut count = 0;
    let mut rest = bytes;
    while let Some((more, after)) = count_next(rest) {
        count += more;
        rest = after;
    }
    if !rest.is_empty() {
        return Err(cut_before(bytes, rest));
    }
    Ok(count)
}
