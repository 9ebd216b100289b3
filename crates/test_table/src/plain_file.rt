//! How the plain server reads files.

// Files and collections as plain lists, written from the tables of docs/FORMATS.md.
use std::alloc::{AllocError, Global};
use tws_file::Ruleset;

// A solution's key, level number first and then its password's bytes, and its body.
#[derive(Drop)]
pub(crate) struct Solution {
    key: u64,
    body: Vec<u8>,
}

fn byte(bytes: &[u8], i: usize) -> u8 {
    bytes.get(i).copied().unwrap_or(0)
}

// A little-endian number of four bytes.
fn little(bytes: &[u8], i: usize) -> u32 {
    u32::from_le_bytes([
        byte(bytes, i),
        byte(bytes, i.wrapping_add(1)),
        byte(bytes, i.wrapping_add(2)),
        byte(bytes, i.wrapping_add(3)),
    ])
}

// The bytes of a file from this place on, at most `count` of them.
pub(crate) fn piece(file: &[u8], from: usize, count: usize) -> &[u8] {
    match file.get(from..) {
        Some(rest) => &rest[..rest.len().min(count)],
        None => &[],
    }
}

// Block `n` of a file, counted from 1.
pub(crate) fn block_of(file: &[u8], n: usize) -> &[u8] {
    piece(file, n.saturating_sub(1).wrapping_mul(512), 512)
}

// The length in bytes of a move that begins with this byte.
fn move_len(first: u8) -> usize {
    match first % 4 {
        0 | 1 => 1,
        2 => 2,
        _ if first / 16 % 2 == 0 => 4,
        _ => 2 + usize::from(first / 4 % 4),
    }
}

fn are_moves(file: &[u8], from: usize, end: usize) -> bool {
    let mut at = from;
    for _ in from..end {
        if at < end {
            at = at.wrapping_add(move_len(byte(file, at)));
        }
    }
    at == end
}

fn is_solution(file: &[u8], at: usize, size: usize) -> bool {
    let number = u16::from_le_bytes([
        byte(file, at.wrapping_add(4)),
        byte(file, at.wrapping_add(5)),
    ]);
    size >= 16 && (number != 0 || little(file, at.wrapping_add(6)) != 0)
}

// The size of the record that begins at this place, if it is one.
fn record_size(file: &[u8], at: usize) -> Option<usize> {
    let left = file.len().saturating_sub(at);
    let size = little(file, at) as usize;
    let is_size = size == 0 || size == 6 || size >= 16;
    if left < 4 || !is_size || left.saturating_sub(4) < size {
        return None;
    }
    let end = at.wrapping_add(4).wrapping_add(size);
    if is_solution(file, at, size) && !are_moves(file, at.wrapping_add(20), end) {
        return None;
    }
    Some(size)
}

fn take_solution(
    alloc: Global,
    file: &[u8],
    at: usize,
    size: usize,
) -> Result<Solution, AllocError> {
    let body = Vec::from_slice(alloc, piece(file, at.wrapping_add(4), size))?;
    let key = u64::from_be_bytes([
        0,
        0,
        byte(&body, 1),
        byte(&body, 0),
        byte(&body, 2),
        byte(&body, 3),
        byte(&body, 4),
        byte(&body, 5),
    ]);
    Ok(Solution { key, body })
}

// Adds the solutions of the records from this place on. Returns whether all that follows is records.
fn add_solutions(
    alloc: Global,
    file: &[u8],
    from: usize,
    solutions: &mut Vec<Solution>,
) -> Result<bool, AllocError> {
    let mut at = from;
    for _ in 0..file.len() {
        if at >= file.len() {
            return Ok(true);
        }
        let Some(size) = record_size(file, at) else {
            return Ok(false);
        };
        if is_solution(file, at, size) {
            solutions.push(take_solution(alloc, file, at, size)?)?;
        }
        at = at.wrapping_add(4).wrapping_add(size);
    }
    Ok(true)
}

// The ruleset of a file and its solutions; `None` if the bytes are not a file.
pub(crate) fn read(
    alloc: Global,
    file: &[u8],
) -> Result<Option<(Ruleset, Vec<Solution>)>, AllocError> {
    let ruleset = match byte(file, 4) {
        1 => Ruleset::Lynx,
        2 => Ruleset::Ms,
        _ => return Ok(None),
    };
    let at = 8 + usize::from(byte(file, 7));
    if file.len() < at || little(file, 0) != 0x999B_3335 {
        return Ok(None);
    }
    let mut solutions = Vec::new(alloc);
    let is_file = add_solutions(alloc, file, at, &mut solutions)?;
    Ok(if is_file {
        Some((ruleset, solutions))
    } else {
        None
    })
}

// Fewer ticks are better, then fewer bytes, then lesser bytes.
fn is_better(one: &[u8], other: &[u8]) -> bool {
    let (ticks, old) = (little(one, 12), little(other, 12));
    if ticks != old {
        return ticks < old;
    }
    if one.len() != other.len() {
        return one.len() < other.len();
    }
    for i in 0..one.len() {
        if byte(one, i) != byte(other, i) {
            return byte(one, i) < byte(other, i);
        }
    }
    false
}

// Whether a solution is better than the one with its key, or is the first with that key.
pub(crate) fn improves(collection: &[Solution], solution: &Solution) -> bool {
    for old in collection {
        if old.key == solution.key {
            return is_better(&solution.body, &old.body);
        }
    }
    true
}

// Whether one of these solutions does.
pub(crate) fn improve(collection: &[Solution], solutions: &[Solution]) -> bool {
    for solution in solutions {
        if improves(collection, solution) {
            return true;
        }
    }
    false
}

// The place of the first solution whose key is not less than this one.
fn place_of(collection: &[Solution], key: u64) -> usize {
    for (i, old) in collection.iter().enumerate() {
        if old.key >= key {
            return i;
        }
    }
    collection.len()
}

// Puts a solution in the place of the one with its key, or before the first with a greater key.
fn put(collection: &mut Vec<Solution>, solution: Solution) -> Result<(), AllocError> {
    let place = place_of(collection, solution.key);
    match collection.get_mut(place) {
        Some(old) if old.key == solution.key => *old = solution,
        _ => {
            if place <= collection.len() {
                collection.insert(place, solution)?;
            }
        }
    }
    Ok(())
}

pub(crate) fn join(
    collection: &mut Vec<Solution>,
    solutions: Vec<Solution>,
) -> Result<(), AllocError> {
    for solution in solutions {
        if improves(collection, &solution) {
            put(collection, solution)?;
        }
    }
    Ok(())
}

fn add_copies(
    alloc: Global,
    collection: &[Solution],
    copies: &mut Vec<Solution>,
) -> Result<(), AllocError> {
    for solution in collection {
        copies.push(Solution {
            key: solution.key,
            body: Vec::from_slice(alloc, &solution.body)?,
        })?;
    }
    Ok(())
}

pub(crate) fn copy(alloc: Global, collection: &[Solution]) -> Result<Vec<Solution>, AllocError> {
    let mut copies = Vec::new(alloc);
    add_copies(alloc, collection, &mut copies)?;
    Ok(copies)
}

fn add_records(text: &mut Vec<u8>, collection: &[Solution]) -> Result<(), AllocError> {
    for solution in collection {
        let size = (solution.body.len() % 65536) as u32;
        text.extend_from_slice(&size.to_le_bytes())?;
        text.extend_from_slice(&solution.body)?;
    }
    Ok(())
}

pub(crate) fn text(
    alloc: Global,
    ruleset: Ruleset,
    collection: &[Solution],
) -> Result<Vec<u8>, AllocError> {
    let rules = match ruleset {
        Ruleset::Lynx => 1,
        Ruleset::Ms => 2,
    };
    let mut text = Vec::from_slice(alloc, &[0x35, 0x33, 0x9B, 0x99, rules, 0, 0, 0])?;
    add_records(&mut text, collection)?;
    Ok(text)
}
