//! Moves that are read, by Tile World's forms.

// Given bytes and the moves that they spell, and a plain slow reader to compare with.
ghost use Rattle.std.specs.Prelude.{◌<◌, ◌^◌, length};

use std::alloc::Global;
use std::test::Fail;
use tws_moves::{Act, Move, MovesFault, check_moves, is_timed, read_moves};

// Whether the moves have these ticks and acts.
fn are_moves(read: &[Move], moves: &[(u64, Act)]) -> bool {
    for (this, (at, act)) in read.iter().zip(moves) {
        if this.at != *at || this.act != *act {
            return false;
        }
    }
    read.len() == moves.len()
}

// Whether these moves are what is read, and their number what is counted.
fn are_read(alloc: Global, bytes: &[u8], moves: &[(u64, Act)]) -> bool
    requires { length bytes.now < 2 ^ 32 }
{
    match read_moves(alloc, bytes) {
        Ok(read) => are_moves(&read, moves) && check_moves(bytes) == Ok(moves.len() as u64),
        Err(_) => false,
    }
}

#[test]
fn moves_of_each_layout(rt: HostRuntime) {
    let rows: [(&[u8], &[(u64, Act)]); 10] = [
        (&[], &[]),
        (
            &[0x00],
            &[(3, Act::Step(0)), (7, Act::Step(0)), (11, Act::Step(0))],
        ),
        (
            &[0xE4],
            &[(3, Act::Step(1)), (7, Act::Step(2)), (11, Act::Step(3))],
        ),
        (&[0x01], &[(0, Act::Step(0))]),
        (&[0xFD], &[(7, Act::Step(7))]),
        (&[0xFE, 0xFF], &[(2_047, Act::Step(7))]),
        (&[0xEF, 0xFF, 0xFF, 0xFF], &[(134_217_727, Act::Step(3))]),
        (&[0xF3, 0xFF], &[(3, Act::Code(511))]),
        (
            &[0xFF, 0xFF, 0xFF, 0xFF, 0xFF],
            &[(67_108_863, Act::Code(511))],
        ),
        (
            &[0x01, 0xFD, 0x00],
            &[
                (0, Act::Step(0)),
                (8, Act::Step(7)),
                (12, Act::Step(0)),
                (16, Act::Step(0)),
                (20, Act::Step(0)),
            ],
        ),
    ];
    for (bytes, moves) in rows {
        assert!(rt; are_read(rt.alloc(), bytes, moves));
    }
}

// Whether reading and counting return a cut at this place.
fn is_cut(alloc: Global, bytes: &[u8], at: u64) -> bool
    requires { length bytes.now < 2 ^ 32 }
{
    let fault = MovesFault::Cut { at };
    read_moves(alloc, bytes).err() == Some(fault) && check_moves(bytes) == Err(fault)
}

#[test]
fn bytes_that_are_cut(rt: HostRuntime) {
    let rows: [(&[u8], u64); 5] = [
        (&[0xFF, 0xFF, 0xFF, 0xFF], 0),
        (&[0xFE], 0),
        (&[0x01, 0xFE], 1),
        (&[0xEF, 0, 0, 0, 0x00, 0xEF, 0, 0], 5),
        (&[0xF3, 0xFF, 0xF7, 0xFF], 2),
    ];
    for (bytes, at) in rows {
        assert!(rt; is_cut(rt.alloc(), bytes, at));
    }
}

#[test]
fn ticks_that_rise(rt: HostRuntime) {
    let step = Act::Step(0);
    let at_3 = Move { at: 3, act: step };
    let at_4 = Move { at: 4, act: step };
    let rise = (is_timed(&[]), is_timed(&[at_3]), is_timed(&[at_3, at_4]));
    let other = (is_timed(&[at_3, at_3]), is_timed(&[at_3, at_4, at_3]));
    assert_eq!(rt; (rise, other), ((true, true, true), (false, false)));
}

// ---- the plain slow reader: fields bit by bit, and each tick as a sum from the first wait on

fn bit(bytes: &[u8], i: usize) -> u64 {
    match bytes.get(i / 8) {
        Some(byte) => u64::from(*byte >> (i % 8) as u32 & 1),
        None => 0,
    }
}

// The field of the bits from `low` to `high`, inclusive.
fn field(bytes: &[u8], low: usize, high: usize) -> u64 {
    let mut value = 0;
    for i in 0..40 {
        let from_above = 39 - i;
        if low <= from_above && from_above <= high {
            value = value << 1 | bit(bytes, from_above);
        }
    }
    value
}

fn step(bytes: &[u8], low: usize, high: usize) -> Act {
    Act::Step((field(bytes, low, high) % 8) as u8)
}

// The waits and acts of a piece, of which the first `count` count, and its length in bytes.
#[derive(Clone, Copy)]
struct Piece {
    waits: [(u64, Act); 3],
    count: usize,
    length: usize,
}

// A piece of one move.
fn alone(wait: u64, act: Act, length: usize) -> Piece {
    Piece {
        waits: [(wait, act); 3],
        count: 1,
        length,
    }
}

// The piece that the bytes begin with.
fn slow_piece(bytes: &[u8]) -> Piece {
    match field(bytes, 0, 1) {
        0 => Piece {
            waits: [
                (3, step(bytes, 2, 3)),
                (3, step(bytes, 4, 5)),
                (3, step(bytes, 6, 7)),
            ],
            count: 3,
            length: 1,
        },
        1 => alone(field(bytes, 5, 7), step(bytes, 2, 4), 1),
        2 => alone(field(bytes, 5, 15), step(bytes, 2, 4), 2),
        _ if bit(bytes, 4) == 0 => alone(field(bytes, 5, 31), step(bytes, 2, 3), 4),
        _ => {
            let length = 2 + (field(bytes, 2, 3) % 4) as usize;
            let code = Act::Code((field(bytes, 5, 13) % 512) as u16);
            alone(field(bytes, 14, 8 * length - 1), code, length)
        }
    }
}

// Adds the waits and acts of all pieces. Returns the place of the piece that is cut, if one is.
fn add_waits(bytes: &[u8], all: &mut Vec<(u64, Act)>) -> Result<Option<usize>, Fail> {
    let mut from = 0_usize;
    for _ in 0..bytes.len() {
        let Some(rest) = bytes.get(from..) else {
            return Ok(Some(from));
        };
        if rest.is_empty() {
            return Ok(None);
        }
        let piece = slow_piece(rest);
        if rest.len() < piece.length {
            return Ok(Some(from));
        }
        for wait in piece.waits.iter().take(piece.count) {
            all.push(*wait)?;
        }
        from = from.saturating_add(piece.length);
    }
    Ok(None)
}

// Move number i, counted from 0, is at the sum of the waits up to its own, plus i.
fn slow_moves(alloc: Global, waits: &[(u64, Act)]) -> Result<Vec<(u64, Act)>, Fail> {
    let mut moves = Vec::new(alloc);
    for (i, (_, act)) in waits.iter().enumerate() {
        let mut at = i as u64;
        for (wait, _) in waits.iter().take(i + 1) {
            at = at.wrapping_add(*wait);
        }
        moves.push((at, *act))?;
    }
    Ok(moves)
}

// Whether the bytes are read as the moves of these waits.
fn are_read_as(alloc: Global, bytes: &[u8], waits: &[(u64, Act)]) -> Result<bool, Fail>
    requires { length bytes.now < 2 ^ 32 }
{
    let moves = slow_moves(alloc, waits)?;
    Ok(are_read(alloc, bytes, &moves))
}

// Whether both readers, and the count, agree on the bytes.
fn compare(alloc: Global, bytes: &[u8]) -> Result<bool, Fail>
    requires { length bytes.now < 2 ^ 32 }
{
    let mut waits = Vec::new(alloc);
    match add_waits(bytes, &mut waits)? {
        None => are_read_as(alloc, bytes, &waits),
        Some(at) => Ok(is_cut(alloc, bytes, at as u64)),
    }
}

#[test]
fn drawn_bytes_are_read_as_the_slow_reader_does(rt: HostRuntime) -> Result<(), Fail> {
    let mut drawn = 1_u64;
    for count in 0..2_000_usize {
        let mut bytes = [0; 22];
        for byte in &mut bytes {
            drawn = drawn
                .wrapping_mul(6_364_136_223_846_793_005)
                .wrapping_add(1);
            *byte = (drawn >> 56) as u8;
        }
        assert!(rt; compare(rt.alloc(), &bytes[..count % 23])?);
    }
    Ok(())
}

// ---- all byte strings of up to two bytes

// Figures over strings, in order: how many are cut, how many moves the others have, and a sum.
#[derive(Clone, Copy)]
struct Figures {
    cut: u64,
    count: u64,
    total: u64,
}

impl Figures {
    fn add(&mut self, value: u64) {
        self.total = (self.total % 1_000_003 * 31 + value % 1_000_003) % 1_000_003;
    }

    fn add_string(&mut self, alloc: Global, bytes: &[u8])
        requires { length bytes.now < 2 ^ 32 }
    {
        match read_moves(alloc, bytes) {
            Ok(moves) => {
                self.count = self.count.wrapping_add(moves.len() as u64);
                for this in &moves {
                    self.add(this.at);
                    self.add(match this.act {
                        Act::Step(direction) => u64::from(direction),
                        Act::Code(code) => u64::from(code) + 1_000,
                    });
                }
                self.add(5);
            }
            Err(MovesFault::Cut { at }) => {
                self.cut = self.cut.wrapping_add(1);
                self.add(at.wrapping_add(7));
            }
            Err(MovesFault::Memory) => self.total = 0,
        }
    }
}

// The expected figures are those of system_tests/moves.py, which reads moves from a table of field widths.
#[test]
fn all_of_two_bytes(rt: HostRuntime) -> Result<(), Fail> {
    let mut figures = Figures {
        cut: 0,
        count: 0,
        total: 0,
    };
    figures.add_string(rt.alloc(), &[]);
    for first in 0..=255_u8 {
        figures.add_string(rt.alloc(), &[first]);
    }
    for first in 0..=255_u8 {
        for second in 0..=255_u8 {
            figures.add_string(rt.alloc(), &[first, second]);
        }
    }
    assert_eq!(rt;
        (figures.cut, figures.count, figures.total),
        (30_848, 84_224, 755_439)
    );
    Ok(())
}
