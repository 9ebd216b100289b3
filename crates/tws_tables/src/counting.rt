//! How many moves a solution has.

ghost use Rattle.std.specs.Prelude.{◌≡◌, ◌<◌, ◌^◌, length};
ghost use Rattle.tws_moves.specs.Spelling.{IsSpelling, moves_in};

use std::alloc::Allocator;
use tws_file::Solution;
use tws_moves::check_moves;

// How many moves the bytes spell, which must spell some.
fn count_spelled(bytes: &[u8]) -> u64
    requires spelled { IsSpelling bytes.now }
    requires short { length bytes.now < 2 ^ 32 }
    ensures { result ≡ length (moves_in bytes.now) }
{
    match check_moves(bytes) {
        Ok(count) => count,
        // No move is cut, and nothing is allocated.
        Err(_) => unreachable!(),
    }
}

/// The number of a solution's moves.
pub fn move_count<B: Allocator>(s: &Solution<B>) -> u64
    ensures { result ≡ length (moves_in s.now.moves) }
{
    count_spelled(s.moves.as_slice())
}
