//! Packing bytes that spell moves into the shortest bytes that spell the same moves, without building a list of the
//! moves.

ghost use Rattle.std.specs.Prelude.{◌≡◌, ℕ, ◌+◌, ◌*◌, ◌<◌, ◌%◌, ◌^◌, List, [], ◌∷◌, length, take, ◌++◌, IfOk, IfErr, OnOk, MatchResult};
ghost use Rattle.tws_moves.specs.declared.moves_fault.MovesFault.TheVariants as fault;
ghost use Rattle.tws_moves.specs.declared.layout.Layout.TheVariants as layout;
ghost use Rattle.tws_moves.specs.Bytes.{number_of};
ghost use Rattle.tws_moves.specs.Move.{Move as Plain};
ghost use Rattle.tws_moves.specs.Spelling.{IsPiece, IsSpelling, Spells, MovesFail, layout_waits, waits_of};
ghost use Rattle.tws_moves.specs.Shortest.{packed_bytes, shortest_of};
ghost use Rattle.tws_moves.specs.Steps.{HasLayout, IsPending, IsShortestAlone, Packs};

use crate::act::Act;
use crate::layout::{Layout, least_value};
use crate::moves_fault::MovesFault;
use crate::number::number_of_first;
use crate::pending::Pending;
use crate::piece::Piece;
use crate::reading::{cut_before, split_piece};
use crate::wait::Wait;
use std::alloc::{AllocError, Allocator};

// Adds a wait that some layout holds.
fn pack_wait<A: Allocator>(
    packed: &mut Vec<u8, A>,
    pending: Pending,
    wait: Wait,
) -> Result<Pending, AllocError>
    requires pending { IsPending pending }
    requires held { HasLayout wait }
    ensures { IfOk result (Packs packed.old.items pending (wait ∷ []) packed.new.items) }
{
    if wait.is_plain() {
        return pending.add(packed, wait.direction());
    }
    pending.push_to(packed)?;
    if let Some(piece) = Piece::alone(wait) {
        piece.push_to(packed)?;
    }
    Ok(Pending::None)
}

// Adds the three steps of a one-byte piece: with none pending, they are the same byte again.
fn pack_three<A: Allocator>(
    packed: &mut Vec<u8, A>,
    pending: Pending,
    byte: u8,
) -> Result<Pending, AllocError>
    requires pending { IsPending pending }
    requires three { byte % 4 ≡ 0 }
    ensures { IfOk result (Packs packed.old.items pending (waits_of (byte ∷ [])) packed.new.items) }
{
    if let Pending::None = pending {
        packed.push(byte)?;
        return Ok(Pending::None);
    }
    let pending = pending.add(packed, byte / 4 % 4)?;
    let pending = pending.add(packed, byte / 16 % 4)?;
    pending.add(packed, byte / 64)
}

// Adds the step of a one-byte piece: written alone, it is the same byte again.
fn pack_short<A: Allocator>(
    packed: &mut Vec<u8, A>,
    pending: Pending,
    byte: u8,
) -> Result<Pending, AllocError>
    requires pending { IsPending pending }
    requires short { byte % 4 ≡ 1 }
    ensures { IfOk result (Packs packed.old.items pending (waits_of (byte ∷ [])) packed.new.items) }
{
    let wait = Wait {
        ticks: u64::from(byte / 32),
        act: Act::Step(byte / 4 % 8),
    };
    if wait.is_plain() {
        return pending.add(packed, wait.direction());
    }
    pending.push_to(packed)?;
    packed.push(byte)?;
    Ok(Pending::None)
}

// Adds the wait of a piece that is the shortest for it: written alone, it is the same bytes again.
fn pack_again<A: Allocator>(
    packed: &mut Vec<u8, A>,
    pending: Pending,
    piece: &[u8],
    number: u64,
) -> Result<Pending, AllocError>
    requires piece { IsPiece piece.now }
    requires shortest { IsShortestAlone piece.now }
    requires number { number ≡ number_of piece.now }
    requires pending { IsPending pending }
    ensures { IfOk result (Packs packed.old.items pending (waits_of piece.now) packed.new.items) }
{
    pending.push_to(packed)?;
    let again = Piece {
        number,
        length: piece.len(),
        moves: 1,
    };
    again.push_to(packed)?;
    Ok(Pending::None)
}

// Adds the moves of the piece that the bytes begin with, in any layout. Kept out of the loop over all pieces, most of
// which are steps in one byte: the loop is faster that way.
#[inline(never)]
fn pack_any<A: Allocator>(
    packed: &mut Vec<u8, A>,
    pending: Pending,
    piece: &[u8],
    bytes: &[u8],
) -> Result<Pending, AllocError>
    requires piece { IsPiece piece.now }
    requires begins { take (length piece.now) bytes.now ≡ piece.now }
    requires pending { IsPending pending }
    ensures { IfOk result (Packs packed.old.items pending (waits_of piece.now) packed.new.items) }
{
    let number = number_of_first(bytes, piece.len());
    // Most pieces of several bytes: to find out what they hold would be a branch for each layout.
    if number >= least_value(piece[0]) {
        return pack_again(packed, pending, piece, number);
    }
    match Wait::in_layout(Layout::of(piece[0]), number) {
        Some(wait) => pack_wait(packed, pending, wait),
        None => pack_three(packed, pending, piece[0]),
    }
}

// Adds the moves of the piece that the bytes begin with.
fn pack_piece<A: Allocator>(
    packed: &mut Vec<u8, A>,
    pending: Pending,
    piece: &[u8],
    bytes: &[u8],
) -> Result<Pending, AllocError>
    requires piece { IsPiece piece.now }
    requires begins { take (length piece.now) bytes.now ≡ piece.now }
    requires pending { IsPending pending }
    ensures { IfOk result (Packs packed.old.items pending (waits_of piece.now) packed.new.items) }
{
    if piece[0] % 4 == 1 {
        return pack_short(packed, pending, piece[0]);
    }
    pack_any(packed, pending, piece, bytes)
}

/// Returns the shortest bytes that spell the same moves as these: what `write_moves` returns for the moves that
/// `read_moves` returns, without building a list of the moves. `bytes` has at most 4,294,967,295 bytes.
///
/// # Errors
///
/// `Cut` if the bytes end inside a move, or `Memory` if an allocation was refused.
#[inline(never)]
pub fn pack_moves<A: Allocator>(alloc: A, bytes: &[u8]) -> Result<Vec<u8, A>, MovesFault>
    requires { length bytes.now < 2 ^ 32 }
    ensures packed { IfOk result (λ packed. packed.items ≡ packed_bytes bytes.now) }
    ensures spelled { OnOk result (IsSpelling bytes.now) }
    // Bytes that spell moves are packed, unless an allocation is refused.
    ensures accepts { (moves : List Plain) → Spells bytes.now moves → MatchResult result (λ packed. packed.items ≡ shortest_of moves) (λ e. e ≡ fault.Memory) }
    ensures fault { IfErr result (MovesFail bytes.now) }
{
    // Packed bytes are never longer.
    let mut packed = Vec::with_capacity(alloc, bytes.len())?;
    let mut pending = Pending::None;
    let mut rest = bytes;
    while let Some((piece, after)) = split_piece(rest) {
        pending = pack_piece(&mut packed, pending, piece, rest)?;
        rest = after;
    }
    if !rest.is_empty() {
        return Err(cut_before(bytes, rest));
    }
    pending.push_to(&mut packed)?;
    Ok(packed)
}
