//! Files and collections of a large size.

// Large inputs, which would show a limit that no contract names.
use std::alloc::Global;
use std::test::Fail;
use tws_moves::{
    Act, Move, SpellFault, check_moves, is_timed, pack_moves, read_moves, write_moves,
};

// `count` bytes of this value.
fn repeated(alloc: Global, byte: u8, count: usize) -> Result<Vec<u8>, Fail> {
    Ok(vec![in alloc; byte; count]?)
}

// How many moves are counted and read, and how many bytes they are packed into; `None` for too many bytes.
fn counts(alloc: Global, bytes: &[u8]) -> Option<(u64, usize, usize)> {
    if bytes.len() >= 1 << 32 {
        return None;
    }
    let counted = check_moves(bytes).ok()?;
    let read = read_moves(alloc, bytes).ok()?.len();
    let packed = pack_moves(alloc, bytes).ok()?.len();
    Some((counted, read, packed))
}

#[test]
fn a_hundred_thousand_moves(rt: HostRuntime) -> Result<(), Fail> {
    // Three plain steps share a byte, and the last one is alone.
    let bytes = repeated(rt.alloc(), 0x61, 100_000)?;
    assert_eq!(rt;
        counts(rt.alloc(), &bytes),
        Some((100_000, 100_000, 33_334))
    );
    Ok(())
}

// `count` moves, one tick after the other, and then one that comes too late.
fn late_after(alloc: Global, count: u64) -> Result<Vec<Move>, Fail> {
    let mut moves = Vec::new(alloc);
    for at in 0..count {
        moves.push(Move {
            at,
            act: Act::Step(1),
        })?;
    }
    moves.push(Move {
        at: u64::MAX,
        act: Act::Step(1),
    })?;
    Ok(moves)
}

// Whether the last of so many moves comes too late.
fn is_last_too_late(alloc: Global, count: u64) -> Result<bool, Fail> {
    let moves = late_after(alloc, count)?;
    let index = count as usize;
    Ok(is_timed(&moves) && write_moves(alloc, &moves).err() == Some(SpellFault::TooLate { index }))
}

#[test]
fn the_last_of_many_moves_comes_too_late(rt: HostRuntime) -> Result<(), Fail> {
    for count in [1, 256, 65_536] {
        assert!(rt; is_last_too_late(rt.alloc(), count)?);
    }
    Ok(())
}
