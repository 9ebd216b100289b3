//! Moves that are written, by Tile World's forms.

// Writing moves, and a plain slow program to compare with, which tries every cut.
ghost use Rattle.std.specs.Prelude.{◌<◌, ◌^◌, length};

use std::alloc::Global;
use std::test::Fail;
use tws_moves::{Act, Move, MovesFault, SpellFault, is_timed, pack_moves, read_moves, write_moves};

// A move with this act; a number that is too large for it is reduced to its range.
fn move_at(at: u64, act: Act) -> Move {
    match act {
        Act::Step(direction) => Move {
            at,
            act: Act::Step(direction % 8),
        },
        Act::Code(code) => Move {
            at,
            act: Act::Code(code % 512),
        },
    }
}

// The moves with these ticks and acts.
fn moves_at(alloc: Global, pairs: &[(u64, Act)]) -> Result<Vec<Move>, Fail> {
    let mut moves = Vec::new(alloc);
    for (at, act) in pairs {
        moves.push(move_at(*at, *act))?;
    }
    Ok(moves)
}

// Whether these moves have rising ticks and are written as these bytes.
fn are_written_as(alloc: Global, moves: &[Move], bytes: &[u8]) -> bool {
    if !is_timed(moves) {
        return false;
    }
    match write_moves(alloc, moves) {
        Ok(written) => written.as_slice() == bytes,
        Err(_) => false,
    }
}

// Whether these bytes are read as these moves.
fn are_read_as(alloc: Global, bytes: &[u8], moves: &[Move]) -> bool
    requires { length bytes.now < 2 ^ 32 }
{
    match read_moves(alloc, bytes) {
        Ok(read) => read.as_slice() == moves,
        Err(_) => false,
    }
}

// Whether these bytes are written, and read back as the same moves.
fn is_written_as(alloc: Global, pairs: &[(u64, Act)], bytes: &[u8]) -> Result<bool, Fail>
    requires { length bytes.now < 2 ^ 32 }
{
    let moves = moves_at(alloc, pairs)?;
    Ok(are_written_as(alloc, &moves, bytes) && are_read_as(alloc, bytes, &moves))
}

#[test]
fn steps_of_each_layout(rt: HostRuntime) -> Result<(), Fail> {
    let rows: [(&[(u64, Act)], &[u8]); 8] = [
        (&[], &[]),
        (&[(0, Act::Step(0))], &[0x01]),
        (&[(7, Act::Step(7))], &[0xFD]),
        (&[(8, Act::Step(0))], &[0x02, 0x01]),
        (&[(2_047, Act::Step(5))], &[0xF6, 0xFF]),
        (&[(2_047, Act::Step(7))], &[0xFE, 0xFF]),
        (&[(2_048, Act::Step(3))], &[0x0F, 0x00, 0x01, 0x00]),
        (&[(134_217_727, Act::Step(3))], &[0xEF, 0xFF, 0xFF, 0xFF]),
    ];
    for (moves, bytes) in rows {
        assert!(rt; is_written_as(rt.alloc(), moves, bytes)?);
    }
    Ok(())
}

#[test]
fn codes_of_each_layout(rt: HostRuntime) -> Result<(), Fail> {
    let rows: [(&[(u64, Act)], &[u8]); 7] = [
        (&[(3, Act::Code(511))], &[0xF3, 0xFF]),
        (&[(4, Act::Code(0))], &[0x17, 0x00, 0x01]),
        (&[(1_023, Act::Code(511))], &[0xF7, 0xFF, 0xFF]),
        (&[(1_024, Act::Code(0))], &[0x1B, 0x00, 0x00, 0x01]),
        (&[(262_143, Act::Code(511))], &[0xFB, 0xFF, 0xFF, 0xFF]),
        (&[(262_144, Act::Code(0))], &[0x1F, 0x00, 0x00, 0x00, 0x01]),
        (
            &[(67_108_863, Act::Code(511))],
            &[0xFF, 0xFF, 0xFF, 0xFF, 0xFF],
        ),
    ];
    for (moves, bytes) in rows {
        assert!(rt; is_written_as(rt.alloc(), moves, bytes)?);
    }
    Ok(())
}

#[test]
fn three_steps_in_a_byte(rt: HostRuntime) -> Result<(), Fail> {
    let zero = Act::Step(0);
    let rows: [(&[(u64, Act)], &[u8]); 6] = [
        (&[(3, zero), (7, zero)], &[0x61, 0x61]),
        (
            &[(3, Act::Step(1)), (7, Act::Step(2)), (11, Act::Step(3))],
            &[0xE4],
        ),
        (
            &[(3, zero), (7, zero), (11, zero), (15, zero)],
            &[0x00, 0x61],
        ),
        // a wait of two ticks, and then three plain steps
        (
            &[(2, zero), (6, zero), (10, zero), (14, zero)],
            &[0x41, 0x00],
        ),
        // a step 4 after a wait of three ticks is not one of them
        (
            &[(3, zero), (7, zero), (11, Act::Step(4)), (15, zero)],
            &[0x61, 0x61, 0x71, 0x61],
        ),
        (
            &[
                (3, zero),
                (7, zero),
                (11, zero),
                (15, zero),
                (19, zero),
                (23, zero),
            ],
            &[0x00, 0x00],
        ),
    ];
    for (moves, bytes) in rows {
        assert!(rt; is_written_as(rt.alloc(), moves, bytes)?);
    }
    Ok(())
}

// Whether these moves have rising ticks, and the one at this index comes too late to be written.
fn is_too_late(alloc: Global, pairs: &[(u64, Act)], index: usize) -> Result<bool, Fail> {
    let moves = moves_at(alloc, pairs)?;
    Ok(is_timed(&moves) && write_moves(alloc, &moves).err() == Some(SpellFault::TooLate { index }))
}

#[test]
fn moves_that_come_too_late(rt: HostRuntime) -> Result<(), Fail> {
    let zero = Act::Step(0);
    let rows: [(&[(u64, Act)], usize); 6] = [
        (&[(2_048, Act::Step(5))], 0),
        (&[(134_217_728, zero)], 0),
        (&[(67_108_864, Act::Code(0))], 0),
        (&[(0, zero), (2_049, Act::Step(4)), (u64::MAX, zero)], 1),
        (&[(3, zero), (7, zero), (11, zero), (u64::MAX, zero)], 3),
        (&[(3, zero), (7, zero), (2_056, Act::Step(7))], 2),
    ];
    for (pairs, index) in rows {
        assert!(rt; is_too_late(rt.alloc(), pairs, index)?);
    }
    Ok(())
}

// Whether packing bytes returns these.
fn packs_to(alloc: Global, bytes: &[u8], packed: &[u8]) -> bool
    requires { length bytes.now < 2 ^ 32 }
{
    match pack_moves(alloc, bytes) {
        Ok(done) => done.as_slice() == packed,
        Err(_) => false,
    }
}

// Whether the moves of these bytes are written as `packed`, and packing returns the same.
fn is_spelled_anew(alloc: Global, bytes: &[u8], packed: &[u8]) -> bool
    requires { length bytes.now < 2 ^ 32 }
{
    match read_moves(alloc, bytes) {
        Ok(moves) => are_written_as(alloc, &moves, packed) && packs_to(alloc, bytes, packed),
        Err(_) => false,
    }
}

#[test]
fn bytes_spelled_anew(rt: HostRuntime) {
    let rows: [(&[u8], &[u8]); 8] = [
        (&[], &[]),
        (&[0x61, 0x61, 0x61, 0x61], &[0x00, 0x61]),
        // two plain steps and then one that waits a tick
        (&[0x65, 0x61, 0x21], &[0x65, 0x61, 0x21]),
        // a plain step, three in a byte, and a plain step of another direction
        (&[0x61, 0xE4, 0x69], &[0x90, 0x6D, 0x69]),
        (&[0x02, 0x00], &[0x01]),
        (&[0x1F, 0x00, 0x00, 0x00, 0x00], &[0x13, 0x00]),
        (&[0x61, 0x00, 0x00], &[0x00, 0x00, 0x61]),
        (&[0x63, 0x00, 0x00, 0x00, 0x62, 0x00, 0x61], &[0x00]),
    ];
    for (bytes, packed) in rows {
        assert!(rt; is_spelled_anew(rt.alloc(), bytes, packed));
    }
}

#[test]
fn bytes_that_are_cut(rt: HostRuntime) {
    assert_eq!(rt;
        pack_moves(rt.alloc(), &[0x61, 0x61, 0x02]).err(),
        Some(MovesFault::Cut { at: 2 })
    );
    // a code of five bytes without its last
    assert_eq!(rt;
        pack_moves(rt.alloc(), &[0x1F, 0x00, 0x00, 0x00]).err(),
        Some(MovesFault::Cut { at: 0 })
    );
}

// ---- the plain slow program: every cut of the waits into parts, each of which has some layout

// A layout that holds one act: its length, how many acts it has room for, and how many bits for ticks.
struct Room {
    bytes: usize,
    acts: u64,
    bits: u32,
}

const STEPS: [Room; 3] = [
    Room {
        bytes: 1,
        acts: 8,
        bits: 3,
    },
    Room {
        bytes: 2,
        acts: 8,
        bits: 11,
    },
    Room {
        bytes: 4,
        acts: 4,
        bits: 27,
    },
];

const CODES: [Room; 4] = [
    Room {
        bytes: 2,
        acts: 512,
        bits: 2,
    },
    Room {
        bytes: 3,
        acts: 512,
        bits: 10,
    },
    Room {
        bytes: 4,
        acts: 512,
        bits: 18,
    },
    Room {
        bytes: 5,
        acts: 512,
        bits: 26,
    },
];

fn least_room(rooms: &[Room], number: u64, ticks: u64) -> Option<usize> {
    let mut least = None;
    for room in rooms {
        if number < room.acts && ticks >> (room.bits % 64) == 0 {
            least = Some(room.bytes.min(least.unwrap_or(room.bytes)));
        }
    }
    least
}

// The fewest bytes for a wait and an act alone.
fn alone(ticks: u64, act: Act) -> Option<usize> {
    match act {
        Act::Step(direction) => least_room(&STEPS, u64::from(direction), ticks),
        Act::Code(code) => least_room(&CODES, u64::from(code), ticks),
    }
}

fn is_low_step_at_3(wait: &(u64, Act)) -> bool {
    match wait.1 {
        Act::Step(direction) => direction <= 3 && wait.0 == 3,
        Act::Code(_) => false,
    }
}

// How many bytes the waits have in one piece.
fn one_piece(part: &[(u64, Act)]) -> Option<usize> {
    match part {
        [one] => alone(one.0, one.1),
        [_, _, _] if part.iter().all(is_low_step_at_3) => Some(1),
        _ => None,
    }
}

// How many bytes the waits have if they are cut after each one whose bit is set, and at the end.
fn cut_by(waits: &[(u64, Act)], bits: u64) -> Option<usize> {
    let mut total = 0_usize;
    let mut from = 0;
    for i in 0..waits.len() {
        if bits >> (i % 64) as u32 & 1 == 1 || i + 1 == waits.len() {
            total = total.saturating_add(one_piece(waits.get(from..i + 1)?)?);
            from = i + 1;
        }
    }
    Some(total)
}

// The fewest bytes over all cuts of up to ten waits.
fn slow_least(waits: &[(u64, Act)]) -> Option<usize> {
    let mut least = None;
    for bits in 0..1 << waits.len().min(10) as u32 {
        if let Some(bytes) = cut_by(waits, bits) {
            least = Some(bytes.min(least.unwrap_or(bytes)));
        }
    }
    least
}

// Draws waits and acts one after another, many of them plain steps, and many at the limits of layouts.
#[derive(Clone, Copy)]
struct Draw {
    state: u64,
}

impl Draw {
    fn below(&mut self, end: u64) -> u64 {
        self.state = self
            .state
            .wrapping_mul(6_364_136_223_846_793_005)
            .wrapping_add(1);
        match (self.state >> 33).checked_rem(end) {
            Some(rest) => rest,
            None => 0,
        }
    }

    fn ticks(&mut self) -> u64 {
        const ENDS: [u64; 7] = [4, 8, 1 << 10, 1 << 11, 1 << 18, 1 << 26, 1 << 27];
        if self.below(4) > 0 {
            return 3;
        }
        let end = match ENDS.get(self.below(7) as usize) {
            Some(end) => *end,
            None => 0,
        };
        end.saturating_add(self.below(3)).saturating_sub(2)
    }

    fn act(&mut self) -> Act {
        match self.below(8) {
            0 => Act::Code((self.below(512) % 512) as u16),
            1 => Act::Step((self.below(8) % 8) as u8),
            _ => Act::Step((self.below(4) % 4) as u8),
        }
    }
}

// The moves with these waits.
fn moves_after(alloc: Global, waits: &[(u64, Act)]) -> Result<Vec<Move>, Fail> {
    let mut moves = Vec::new(alloc);
    let mut next = 0_u64;
    for (ticks, act) in waits {
        let at = next.wrapping_add(*ticks);
        moves.push(move_at(at, *act))?;
        next = at.wrapping_add(1);
    }
    Ok(moves)
}

// Whether the moves with these waits are written as short as any cut, and read back; or the first that comes too late is
// named.
fn is_right(alloc: Global, waits: &[(u64, Act)], moves: &[Move]) -> bool {
    if !is_timed(moves) {
        return false;
    }
    let late = waits
        .iter()
        .position(|wait| alone(wait.0, wait.1).is_none());
    match write_moves(alloc, moves) {
        Ok(bytes) => {
            late == None
                && slow_least(waits) == Some(bytes.len())
                && bytes.len() < 64
                && are_read_as(alloc, &bytes, moves)
        }
        Err(fault) => late.map(|index| SpellFault::TooLate { index }) == Some(fault),
    }
}

fn draw_waits(alloc: Global, draw: &mut Draw, count: u64) -> Result<Vec<(u64, Act)>, Fail> {
    let mut waits = Vec::new(alloc);
    for _ in 0..count {
        waits.push((draw.ticks(), draw.act()))?;
    }
    Ok(waits)
}

// Draws so many moves. Returns whether they are written rightly, and whether one of them comes too late.
fn draw_moves(alloc: Global, draw: &mut Draw, count: u64) -> Result<(bool, bool), Fail> {
    let waits = draw_waits(alloc, draw, count)?;
    let moves = moves_after(alloc, &waits)?;
    Ok((
        is_right(alloc, &waits, &moves),
        slow_least(&waits).is_none(),
    ))
}

#[test]
fn drawn_moves_are_as_short_as_any_cut(rt: HostRuntime) -> Result<(), Fail> {
    let mut draw = Draw { state: 7 };
    let mut late = 0_u64;
    for count in 0..4_000_u64 {
        let (is_right, is_late) = draw_moves(rt.alloc(), &mut draw, count % 10)?;
        assert!(rt; is_right);
        if is_late {
            late = late.wrapping_add(1);
        }
    }
    // Both outcomes are drawn often.
    assert!(rt; 200 < late && late < 2_000);
    Ok(())
}
