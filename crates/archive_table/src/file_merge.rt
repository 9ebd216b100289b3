//! A received file is read from its chunks, and merged chunk by chunk, so that its records are never held together.

ghost use Rattle.std.specs.Prelude.{◌≡◌, ◌≤◌, Some, IfOk, OnOk, MatchOption};
ghost use Rattle.tws_file.specs.Fault.{HasFileFault};
ghost use Rattle.tws_file.specs.Fields.{ruleset_in};
ghost use Rattle.tws_file.specs.Text.{File, IsText};
ghost use Rattle.tws_reader.specs.PartReader.{HasRoom};
ghost use Rattle.tws_best.specs.Best.{IsCollected};
ghost use Rattle.archive_table.specs.FileMerge.{TakesChunk, MergesText};

use std::alloc::{AllocError, Allocator};
use tftp_ends::Received;
use tws_best::Merge;
use tws_file::{FileFault, Ruleset};
use tws_reader::PartReader;

/// The ruleset that the fifth byte of a received file says.
pub(crate) fn ruleset_of<A: Allocator>(file: &Received<A>) -> Option<Ruleset>
    ensures code { result ≡ ruleset_in file.now }
    ensures text { (read : File) → IsText file.now read → result ≡ Some read.«ruleset» }
{
    if file.chunk_count() == 0 {
        return None;
    }
    Ruleset::of_file(file.chunk(0))
}

// Merges the records that a chunk completes. A fault of the bytes has no effect before the file is whole. On error all
// that was merged is undone.
fn take_chunk<A: Allocator + Copy>(
    reader: &mut PartReader<A>,
    merge: &mut Merge<A>,
    chunk: &[u8],
) -> Result<(), AllocError>
    requires room { HasRoom reader.old chunk.now }
    ensures first { merge.new.first ≡ merge.old.first }
    ensures rules { merge.new.now.ruleset ≡ merge.old.now.ruleset }
    ensures takes { OnOk result (TakesChunk reader.old merge.old.now chunk.now reader.new merge.new.now) }
{
    match reader.push(chunk) {
        Ok(records) => merge.take(records.as_slice()),
        Err(fault) => {
            if fault == FileFault::Memory {
                return Err(AllocError);
            }
            Ok(())
        }
    }
}

/// Merges all records of a received file. Returns why it is not a solution file, if it is none. On error all that was merged
/// is undone.
pub(crate) fn merge_chunks<A: Allocator + Copy>(
    alloc: A,
    merge: &mut Merge<A>,
    file: &Received<A>,
) -> Result<Option<FileFault>, AllocError>
    requires fits { IsCollected merge.old.now }
    ensures first { merge.new.first ≡ merge.old.first }
    ensures rules { merge.new.now.ruleset ≡ merge.old.now.ruleset }
    ensures read { IfOk result (λ fault. MatchOption fault (MergesText file.now merge.old.now merge.new.now) (HasFileFault file.now)) }
{
    // By this call it is known that all bytes can be counted.
    let _len = file.len();
    let mut reader = PartReader::new(alloc);
    for i in 0..file.chunk_count() {
        take_chunk(&mut reader, merge, file.chunk(i))?;
    }
    match reader.finish() {
        Ok(()) => Ok(None),
        Err(fault) => Ok(Some(fault)),
    }
}
