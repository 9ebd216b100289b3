//! Writing moves as bytes.

ghost use Rattle.std.specs.Prelude.{◌≡◌, ℕ, ◌≤◌, List, length, IfOk, IfErr, MatchResult};
ghost use Rattle.tws_moves.specs.declared.spell_fault.SpellFault.TheVariants as fault;
ghost use Rattle.tws_moves.specs.Move.{IsTimed};
ghost use Rattle.tws_moves.specs.Spelling.{Spells};
ghost use Rattle.tws_moves.specs.Shortest.{IsShortest, SpellFails, shortest_of};

use crate::moves::Move;
use crate::piece::Piece;
use crate::spell_fault::SpellFault;
use std::alloc::Allocator;

/// Returns the shortest bytes that spell the moves, which must be at rising ticks (`is_timed`).
///
/// Works from the left: if the next three moves are steps in directions 0 to 3 that wait three ticks each, they are one
/// byte; otherwise the next move is alone in its piece, in the shortest layout that holds it.
///
/// # Errors
///
/// `TooLate` if no bytes spell the moves, with the index of the first move whose wait no layout holds; or `Memory` if
/// an allocation was refused.
pub fn write_moves<A: Allocator>(alloc: A, moves: &[Move]) -> Result<Vec<u8, A>, SpellFault>
    requires { IsTimed moves.now }
    ensures written { IfOk result (λ bytes. bytes.items ≡ shortest_of moves.now) }
    ensures shortest { IfOk result (λ bytes. IsShortest bytes.items moves.now) }
    // Moves that have a spelling are written, unless an allocation is refused.
    ensures accepts { (others : List ℕ) → Spells others moves.now → MatchResult result (λ bytes. length bytes.items ≤ length others) (λ e. e ≡ fault.Memory) }
    ensures fault { IfErr result (SpellFails moves.now) }
{
    let mut bytes = Vec::new(alloc);
    let mut index = 0;
    while index < moves.len() {
        let Some(piece) = Piece::next(moves, index) else {
            return Err(SpellFault::TooLate { index });
        };
        piece.push_to(&mut bytes)?;
        index += piece.moves;
    }
    Ok(bytes)
}
