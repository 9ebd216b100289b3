//! What holds of spellings, whatever code reads them. These functions do nothing: each contract is a theorem.

ghost use Rattle.std.specs.Prelude.{◌≡◌, ◌≤◌, ◌⊎◌, ℕ, List, length};
ghost use Rattle.std.specs.List.{AllByRecursion};
ghost use Rattle.byte_output.specs.Bytes.{IsBytes};
ghost use Rattle.tws_moves.specs.Move.{Move, Wait, IsAct, IsTimed, AreMoves, moves_from};
ghost use Rattle.tws_moves.specs.Spelling.{Spells, IsSpelling, IsCutAt, moves_in};
ghost use Rattle.tws_moves.specs.Shortest.{IsShortest, IsSpelled, IsTooLateAt, shortest_of, packed_bytes};

/// Bytes spell at most one list of moves.
pub fn one_reading()
    ensures { (bytes : List ℕ) (m n : List Move) → Spells bytes m → Spells bytes n → m ≡ n }
{}

/// The moves that bytes spell are those that a function returns.
pub fn moves_by_function()
    ensures { (bytes : List ℕ) (moves : List Move) → Spells bytes moves → moves ≡ moves_in bytes }
{}

/// Bytes either spell moves or are cut, and then at only one place.
pub fn cut_or_spelled()
    ensures spelled { (bytes : List ℕ) → IsBytes bytes → IsSpelling bytes ⊎ ((at : ℕ) × IsCutAt bytes at) }
    ensures not_both { (bytes : List ℕ) (at : ℕ) → IsCutAt bytes at → IsSpelling bytes → ⊥ }
    ensures one_place { (bytes : List ℕ) (m n : ℕ) → IsCutAt bytes m → IsCutAt bytes n → m ≡ n }
{}

/// Waits make exactly one list of moves, computed with a running tick: each move is made its wait after the tick that
/// follows the previous move.
pub fn ticks_of_waits()
    ensures made { (waits : List Wait) → AreMoves waits (moves_from 0 waits) }
    ensures alone { (waits : List Wait) (moves : List Move) → AreMoves waits moves → moves ≡ moves_from 0 waits }
{}

/// Moves that bytes spell are timed, and the bytes that spell them are below 256.
pub fn spelled_moves_are_timed()
    ensures timed { (bytes : List ℕ) (moves : List Move) → Spells bytes moves → IsTimed moves }
    ensures bytes { (bytes : List ℕ) (moves : List Move) → Spells bytes moves → IsBytes bytes }
{}

/// Moves that have a spelling have a shortest one, which a function returns and which reads back as the same moves.
pub fn shortest_by_function()
    ensures shortest { (moves : List Move) → IsSpelled moves → IsShortest (shortest_of moves) moves }
    ensures no_longer { (bytes : List ℕ) (moves : List Move) → Spells bytes moves → length (shortest_of moves) ≤ length bytes }
    ensures reads_back { (moves others : List Move) → IsSpelled moves → Spells (shortest_of moves) others → others ≡ moves }
{}

/// Timed moves have a spelling, or one of them is the first that comes too late for any spelling.
pub fn spelled_or_too_late()
    ensures either { (moves : List Move) → AllByRecursion (λ (m : Move). IsAct m.act) moves → IsTimed moves → IsSpelled moves ⊎ ((index : ℕ) × IsTooLateAt moves index) }
    ensures one_index { (moves : List Move) (m n : ℕ) → IsTooLateAt moves m → IsTooLateAt moves n → m ≡ n }
{}

/// Packed bytes spell the same moves in no more bytes. Packing them again changes nothing.
pub fn packing()
    ensures spells { (bytes : List ℕ) (moves : List Move) → Spells bytes moves → Spells (packed_bytes bytes) moves }
    ensures shortest { (bytes : List ℕ) (moves : List Move) → Spells bytes moves → IsShortest (packed_bytes bytes) moves }
    ensures no_longer { (bytes : List ℕ) → IsSpelling bytes → length (packed_bytes bytes) ≤ length bytes }
    ensures once { (bytes : List ℕ) → IsSpelling bytes → packed_bytes (packed_bytes bytes) ≡ packed_bytes bytes }
    ensures bytes { (bytes : List ℕ) → IsSpelling bytes → IsBytes (packed_bytes bytes) }
{}
