//! Reading the bytes of records.

ghost use Rattle.std.specs.Prelude.{◌≡◌, ◌+◌, ◌<◌, ◌≤◌, ◌^◌, ◌++◌, ◌↔◌, length, take, drop, Err, IsTrue, OnOk, IfOk, IfErr, IfSome, IfNone};
ghost use Rattle.std.specs.List.{flat_map, AllByRecursion};
ghost use Rattle.byteorder.specs.Endian.{little_number};
ghost use Rattle.tws_moves.specs.Spelling.{IsSpelling};
ghost use Rattle.tws_file.specs.Fields.{key_bytes, IsKey};
ghost use Rattle.tws_file.specs.Text.{IsRecord, IsLevel, body_of, record_text, solution};
ghost use Rattle.tws_file.specs.Fault.{IsRecordCut};
ghost use Rattle.tws_file.specs.Steps.{IsSize, solved_after_key};
ghost use Rattle.tws_reader.specs.Steps.{MovesFailAt, SolutionFails, RecordFails, RecordsFail};
ghost use Rattle.tws_file.specs.Record.{record_of, records_of};

use byteorder::{ByteOrder, LittleEndian};
use std::alloc::Allocator;
use tws_file::{Bytes, FileFault, Key, Record, Solution};
use tws_moves::{MovesFault, check_moves};

// The key that a body begins with.
fn read_key(body: &[u8]) -> Key
    requires { 6 ≤ length body.now }
    ensures fits { IsKey result }
    ensures bytes { key_bytes result ≡ take 6 body.now }
{
    Key {
        number: LittleEndian::read_u16(body),
        password: [body[2], body[3], body[4], body[5]],
    }
}

// Keeps the bytes of moves, which are at `offset` in the file, if no move is cut.
fn keep_moves<A: Allocator>(alloc: A, offset: u64, bytes: &[u8]) -> Result<Bytes<A>, FileFault>
    requires short { length bytes.now < 2 ^ 32 }
    requires room { offset + length bytes.now < 2 ^ 64 }
    ensures bytes { IfOk result (λ moves. moves ≡ bytes.now) }
    ensures whole { OnOk result (IsSpelling bytes.now) }
    ensures fault { IfErr result (MovesFailAt bytes.now offset) }
{
    match check_moves(bytes) {
        Ok(_) => Ok(Bytes::of(Vec::from_slice(alloc, bytes)?)),
        Err(MovesFault::Cut { at }) => Err(FileFault::MoveCut(offset + at)),
        // Counting moves does not allocate.
        Err(MovesFault::Memory) => unreachable!(),
    }
}

// Reads a solution from the bytes after its key, which are at `offset` in the file.
fn read_solution<A: Allocator>(
    alloc: A,
    key: Key,
    offset: u64,
    rest: &[u8],
) -> Result<Solution<A>, FileFault>
    requires key { IsLevel key }
    requires long { 10 ≤ length rest.now }
    requires size { 6 + length rest.now < 2 ^ 32 }
    requires room { offset + length rest.now < 2 ^ 64 }
    ensures key { IfOk result (λ s. s.key ≡ key) }
    ensures bytes { IfOk result (λ s. solved_after_key s ≡ rest.now) }
    ensures fits { IfOk result (λ s. IsRecord (solution s)) }
    ensures fault { IfErr result (SolutionFails (key_bytes key ++ rest.now) (offset + 10)) }
{
    let seed = LittleEndian::read_u32(&rest[2..]);
    let ticks = LittleEndian::read_u32(&rest[6..]);
    let moves = keep_moves(alloc, offset + 10, &rest[10..])?;
    Ok(Solution {
        key,
        flags: rest[0],
        start: rest[1],
        seed,
        ticks,
        moves,
    })
}

// Reads the record with this body, which is at `offset` in the file.
fn read_body<A: Allocator>(alloc: A, offset: u64, body: &[u8]) -> Result<Record<A>, FileFault>
    requires size { IsSize (length body.now) }
    requires fits { length body.now < 2 ^ 32 }
    requires room { offset + length body.now < 2 ^ 64 }
    ensures record { IfOk result (λ r. IsRecord (record_of r)) }
    ensures bytes { IfOk result (λ r. body_of (record_of r) ≡ body.now) }
    ensures fault { IfErr result (SolutionFails body.now (offset + 16)) }
{
    if body.is_empty() {
        return Ok(Record::Pad);
    }
    let key = read_key(body);
    let rest = &body[6..];
    if key.is_level_set() {
        let rest = Bytes::of(Vec::from_slice(alloc, rest)?);
        return Ok(Record::Set { rest });
    }
    if rest.is_empty() {
        return Ok(Record::Bare { key });
    }
    Ok(Record::Solution(read_solution(alloc, key, offset + 6, rest)?))
}

// Whether a record can have this size.
fn is_size(size: usize) -> bool
    ensures { IsTrue result ↔ IsSize size }
{
    matches!(size, 0 | 6 | 16..)
}

// The record that the bytes begin with, which are at `offset` in the file, and the bytes after it; `None` if it is cut.
fn read_record<A: Allocator>(
    alloc: A,
    offset: u64,
    bytes: &[u8],
) -> Result<Option<(Record<A>, &[u8])>, FileFault>
    requires { offset + length bytes.now < 2 ^ 64 }
    ensures record { IfOk result (λ r. IfSome r (λ one. IsRecord (record_of one.0))) }
    ensures bytes { IfOk result (λ r. IfSome r (λ one. bytes.now ≡ record_text (record_of one.0) ++ one.1.now)) }
    ensures cut { IfOk result (λ r. IfNone r (IsRecordCut bytes.now)) }
    ensures fault { IfErr result (RecordFails bytes.now offset) }
    // If no record has this size, that is the fault, before anything is allocated.
    ensures size { 4 ≤ length bytes.now → (IsSize (little_number 4 bytes.now) → ⊥) → result ≡ Err (FileFault.BadSize offset) }
{
    if bytes.len() < 4 {
        return Ok(None);
    }
    let (field, rest) = bytes.split_at(4);
    let size = LittleEndian::read_u32(field) as usize;
    if !is_size(size) {
        return Err(FileFault::BadSize(offset));
    }
    if rest.len() < size {
        return Ok(None);
    }
    let (body, rest) = rest.split_at(size);
    Ok(Some((read_body(alloc, offset + 4, body)?, rest)))
}

// The bytes after the record that the bytes begin with, by its size alone; `None` if it is cut or has none.
fn after_record(bytes: &[u8]) -> Option<&[u8]>
    ensures { IfSome result (λ after. length after.now < length bytes.now) }
{
    if bytes.len() < 4 {
        return None;
    }
    let (field, rest) = bytes.split_at(4);
    let size = LittleEndian::read_u32(field) as usize;
    if !is_size(size) {
        return None;
    }
    rest.get(size..)
}

// How many records the bytes begin with, by their sizes alone.
fn count_records(bytes: &[u8]) -> usize
    ensures { result ≤ length bytes.now }
{
    let mut count: usize = 0;
    let mut rest = bytes;
    while let Some(after) = after_record(rest) {
        count = count.saturating_add(1);
        rest = after;
    }
    count
}

// The records from offset `start` on, up to one that is cut, and the bytes from there.
pub(crate) fn read_records<A: Allocator + Copy>(
    alloc: A,
    start: u64,
    bytes: &[u8],
) -> Result<(Vec<Record<A>, A>, &[u8]), FileFault>
    requires { start + length bytes.now < 2 ^ 64 }
    ensures records { IfOk result (λ r. AllByRecursion IsRecord (records_of r.0.items)) }
    ensures bytes { IfOk result (λ r. bytes.now ≡ flat_map record_text (records_of r.0.items) ++ r.1.now) }
    ensures cut { IfOk result (λ r. IsRecordCut r.1.now) }
    ensures fault { IfErr result (RecordsFail bytes.now start) }
{
    let mut records = Vec::new(alloc);
    // A list that grows is copied each time. Where the room is refused, it grows as it needs to.
    let _ = records.reserve_exact(count_records(bytes));
    let mut rest = bytes;
    let mut offset = start;
    while let Some((record, after)) = read_record(alloc, offset, rest)? {
        records.push(record)?;
        offset += (rest.len() - after.len()) as u64;
        rest = after;
    }
    Ok((records, rest))
}
