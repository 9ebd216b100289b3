//! Files that several tests send.

use std::alloc::{AllocError, Allocator};

/// Files without a solution, one of each ruleset.
pub const EMPTY_LYNX: &[u8; 8] = b"\x35\x33\x9B\x99\x01\0\0\0";

pub const EMPTY_MS: &[u8; 8] = b"\x35\x33\x9B\x99\x02\0\0\0";

/// A Lynx file of one solution: level 1, BDHP, 100 ticks, no moves. A collection of it alone has the same text.
pub const HUNDRED: &[u8; 28] =
    b"\x35\x33\x9B\x99\x01\0\0\0\x10\0\0\0\x01\0BDHP\0\0\0\0\0\0\x64\0\0\0";

/// The same in 90 ticks.
pub const NINETY: &[u8; 28] =
    b"\x35\x33\x9B\x99\x01\0\0\0\x10\0\0\0\x01\0BDHP\0\0\0\0\0\0\x5A\0\0\0";

/// The solution in 100 ticks with a move that is cut, at byte 29.
pub const CUT_MOVE: &[u8; 30] =
    b"\x35\x33\x9B\x99\x01\0\0\0\x12\0\0\0\x01\0BDHP\0\0\0\0\0\0\x64\0\0\0\x01\xFE";

/// Seven bytes that no file begins with: there is an eighth in a header, and the fourth one is another.
pub const UNREADABLE: &[u8; 7] = b"\x35\x33\x9B\x98\x02\0\0";

/// Joins the parts, in order.
pub fn join<A: Allocator>(
    alloc: A,
    first: &[u8],
    others: &[&[u8]],
) -> Result<Vec<u8, A>, AllocError> {
    let mut bytes = Vec::from_slice(alloc, first)?;
    for one in others {
        bytes.extend_from_slice(one)?;
    }
    Ok(bytes)
}

/// `count` moves of one byte each.
pub fn steps<A: Allocator>(alloc: A, count: usize) -> Result<Vec<u8, A>, AllocError> {
    Ok(vec![in alloc; 1; count]?)
}

/// A solution's record as in a file: its size, and then its body. It has less than 4 GB of moves.
pub fn record<A: Allocator>(
    alloc: A,
    number: u16,
    password: &[u8; 4],
    seed: u32,
    ticks: u32,
    moves: &[u8],
) -> Result<Vec<u8, A>, AllocError> {
    let size = ((moves.len() % 0x1_0000_0000) as u32).wrapping_add(16);
    let parts: [&[u8]; 6] = [
        &number.to_le_bytes(),
        password,
        &[0, 0],
        &seed.to_le_bytes(),
        &ticks.to_le_bytes(),
        moves,
    ];
    join(alloc, &size.to_le_bytes(), &parts)
}
