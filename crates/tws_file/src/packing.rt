//! Packing a file: its moves are spelled in the fewest bytes.

ghost use Rattle.std.specs.Prelude.{◌≡◌, ◌<◌, ◌^◌, length, map, IfOk};
ghost use Rattle.tws_moves.specs.Shortest.{packed_bytes};
ghost use Rattle.tws_moves.specs.Spelling.{IsSpelling};
ghost use Rattle.tws_file.specs.Record.{record_of, records_of};
ghost use Rattle.tws_file.specs.Packing.{packed_solution, packed_record, packed_file};

use crate::bytes::Bytes;
use crate::record::Record;
use crate::records::Records;
use crate::solution::Solution;
use crate::tws_file::TwsFile;
use std::alloc::{AllocError, Allocator};
use tws_moves::{MovesFault, pack_moves};

// The shortest bytes that spell the same moves as these bytes, which must spell some.
fn pack_spelled<A: Allocator + Copy>(alloc: A, bytes: &[u8]) -> Result<Bytes<A>, AllocError>
    requires spelled { IsSpelling bytes.now }
    requires short { length bytes.now < 2 ^ 32 }
    ensures { IfOk result (λ packed. packed ≡ packed_bytes bytes.now) }
{
    match pack_moves(alloc, bytes) {
        Ok(packed) => Ok(Bytes::of(packed)),
        Err(MovesFault::Memory) => Err(AllocError),
        // No move is cut.
        Err(MovesFault::Cut { .. }) => unreachable!(),
    }
}

fn pack_solution<A: Allocator + Copy, B: Allocator>(
    alloc: A,
    s: &Solution<B>,
) -> Result<Solution<A>, AllocError>
    ensures { IfOk result (λ packed. packed ≡ packed_solution s.now) }
{
    let moves = pack_spelled(alloc, s.moves.as_slice())?;
    Ok(Solution {
        key: s.key,
        flags: s.flags,
        start: s.start,
        seed: s.seed,
        ticks: s.ticks,
        moves,
    })
}

fn pack_record<A: Allocator + Copy, B: Allocator>(
    alloc: A,
    one: &Record<B>,
) -> Result<Record<A>, AllocError>
    ensures { IfOk result (λ packed. record_of packed ≡ packed_record (record_of one.now)) }
{
    Ok(match one {
        Record::Pad => Record::Pad,
        Record::Set { rest } => {
            let rest = Bytes::of(Vec::from_slice(alloc, rest.as_slice())?);
            Record::Set { rest }
        }
        Record::Bare { key } => Record::Bare { key: *key },
        Record::Solution(solution) => Record::Solution(pack_solution(alloc, solution)?),
    })
}

fn pack_records<A: Allocator + Copy, B: Allocator>(
    alloc: A,
    records: &[Record<B>],
) -> Result<Vec<Record<A>, A>, AllocError>
    ensures { IfOk result (λ packed. records_of packed.items ≡ map packed_record (records_of records.now)) }
{
    let mut packed = Vec::with_capacity(alloc, records.len())?;
    for record in records {
        packed.push(pack_record(alloc, record)?)?;
    }
    Ok(packed)
}

/// Returns the file with each solution's moves spelled in the fewest bytes, and with everything else unchanged.
///
/// # Errors
///
/// Fails if an allocation was refused.
pub fn pack<A: Allocator + Copy, B: Allocator>(
    alloc: A,
    file: &TwsFile<B>,
) -> Result<TwsFile<A>, AllocError>
    ensures { IfOk result (λ packed. packed ≡ packed_file file.now) }
{
    let extra = Bytes::of(Vec::from_slice(alloc, file.extra.as_slice())?);
    let records = Records::of(pack_records(alloc, file.records.as_slice())?);
    Ok(TwsFile {
        ruleset: file.ruleset,
        word: file.word,
        extra,
        records,
    })
}
