//! Files that are read, shown and written without memory.

// Reading and listing a solution file.
ghost use Rattle.std.specs.Prelude.{ℕ, ◌+◌, length};
ghost use Rattle.tws_reader.specs.Reader.{HasRoomFor, HasAtMost};

use refusing::{Complaint, Outcome, Refusing, refuse_each};
use std::alloc::{Allocator, Global};
use test_samples::CUT_MOVE;
use tws_file::{FileFault, OutFault, TwsFile};
use tws_reader::{Reader, read_file};
use tws_tables::show;

// Two further header bytes, then a set record, a bare one, a pad, and a solution with two bytes of moves.
const EVERY_RULESET: [u8; 66] = [
    0x35, 0x33, 0x9B, 0x99, 0x02, 0x00, 0x00, 0x02, 0xAB, 0xCD, 0x10, 0x00, 0x00, 0x00, 0x00, 0x00,
    0x00, 0x00, 0x00, 0x00, 0x61, 0x20, 0x73, 0x65, 0x74, 0x20, 0x6F, 0x66, 0x20, 0x6C, 0x06, 0x00,
    0x00, 0x00, 0x02, 0x00, 0x41, 0x42, 0x43, 0x44, 0x00, 0x00, 0x00, 0x00, 0x12, 0x00, 0x00, 0x00,
    0x01, 0x00, 0x42, 0x44, 0x48, 0x50, 0x00, 0x00, 0x00, 0x00, 0x00, 0x00, 0x64, 0x00, 0x00, 0x00,
    0x00, 0x61,
];

const LISTING: &str =
    "ruleset ms word 0000 extra 2\nset 10\nlevel 2 ABCD\npad\nlevel 1 BDHP ticks 100 flags 00 start 00 seed 0 bytes 2\n at 3 step 0\n at 7 step 0\n at 11 step 0\n at 15 step 0\nrecords 4\n";

fn is_listed<A: Allocator>(global: Global, file: &TwsFile<A>) -> bool {
    let mut out = Vec::new(global);
    let is_shown = show(global, file, true, &mut out).is_ok();
    is_shown && out.as_slice() == LISTING.as_bytes()
}

fn read(refusing: &Refusing<Global>) -> Outcome {
    match read_file(refusing, &EVERY_RULESET) {
        Ok(file) => Outcome::of(is_listed(refusing.inner, &file)),
        Err(fault) => Outcome::refused(fault == FileFault::Memory),
    }
}

#[test]
fn reading(rt: HostRuntime) -> Result<(), Complaint> {
    refuse_each(rt.alloc(), 4, &read)
}

// The sink keeps the plain allocator: if it ran out of memory, that would be a fault of the writer.
fn list_file(refusing: &Refusing<Global>, file: &TwsFile) -> Outcome {
    let mut out = Vec::new(refusing.inner);
    match show(refusing, file, true, &mut out) {
        Ok(()) => Outcome::of(out.as_slice() == LISTING.as_bytes()),
        Err(fault) => Outcome::refused(fault == OutFault::Memory),
    }
}

fn list(refusing: &Refusing<Global>) -> Outcome {
    match read_file(refusing.inner, &EVERY_RULESET) {
        Ok(file) => list_file(refusing, &file),
        Err(_) => Outcome::Wrong,
    }
}

#[test]
fn listing(rt: HostRuntime) -> Result<(), Complaint> {
    refuse_each(rt.alloc(), 2, &list)
}

// A record of the greatest size, of which two bytes have come.
const CUT: &[u8; 14] = b"\x35\x33\x9B\x99\x01\0\0\0\xFF\xFF\xFF\xFF\x01\0";

// Why a file is not read; `None` if it is.
fn fault_of<A: Allocator + Copy>(alloc: A, bytes: &[u8]) -> Option<FileFault> {
    match read_file(alloc, bytes) {
        Ok(_file) => None,
        Err(fault) => Some(fault),
    }
}

// The same of that file, and how many requests for memory are made, of which the second is refused.
fn read_cut_record(global: Global) -> (Option<FileFault>, u64) {
    let refusing = Refusing::new(global, 2);
    let fault = fault_of(&refusing, CUT);
    (fault, refusing.requests())
}

// Nothing is allocated for a size field before the bytes that it announces have arrived: the one request is for the
// bytes that arrived and are not read yet.
#[test]
fn a_cut_record_of_the_greatest_size(rt: HostRuntime) {
    assert_eq!(rt;
        read_cut_record(rt.alloc()),
        (Some(FileFault::ShortRecord(8)), 1)
    );
}

// Pushes a piece, and once more if that was out of memory.
fn push_again<A: Allocator + Copy>(reader: &mut Reader<A>, piece: &[u8]) -> Result<(), FileFault>
    requires { HasRoomFor reader.old piece.now }
    ensures { (n : ℕ) → HasAtMost reader.old n → HasAtMost reader.new (n + length piece.now) }
{
    match reader.push(piece) {
        Err(FileFault::Memory) => reader.push(piece),
        outcome => outcome,
    }
}

// Whether a reader has read the file.
fn has_read<A: Allocator + Copy>(global: Global, reader: Reader<A>) -> bool {
    match reader.finish() {
        Ok(file) => is_listed(global, &file),
        Err(_) => false,
    }
}

// Reads the file byte by byte. A push that was out of memory is made again, so that the answer is the complete one.
fn read_again(refusing: &Refusing<Global>) -> Outcome {
    let mut reader = Reader::new(refusing);
    let mut are_pushed = true;
    for i in 0..EVERY_RULESET.len() {
        if push_again(&mut reader, &EVERY_RULESET[i..i + 1]).is_err() {
            are_pushed = false;
        }
    }
    let is_read = has_read(refusing.inner, reader);
    Outcome::of(are_pushed && is_read)
}

#[test]
fn reading_in_pieces(rt: HostRuntime) -> Result<(), Complaint> {
    refuse_each(rt.alloc(), 6, &read_again)
}

// The same for the first piece.
fn push_first<A: Allocator + Copy>(reader: &mut Reader<A>, piece: &[u8]) -> Result<(), FileFault>
    requires { HasAtMost reader.old 0 }
    ensures { HasAtMost reader.new (length piece.now) }
{
    push_again(reader, piece)
}

// Passes the cut file to a new reader in two pieces, of which the first has 20 bytes. A push that was out of memory is made
// again.
fn push_cut<A: Allocator + Copy>(reader: &mut Reader<A>) -> Result<(), FileFault>
    requires { HasAtMost reader.old 0 }
{
    let (first, rest) = CUT_MOVE.split_at(20);
    push_first(reader, first)?;
    push_again(reader, rest)
}

// Why a reader has read no file; `None` if it has.
fn fault_at_end<A: Allocator + Copy>(reader: Reader<A>) -> Option<FileFault> {
    match reader.finish() {
        Ok(_file) => None,
        Err(fault) => Some(fault),
    }
}

// Reads the cut file so. The fault is that of a push, or else that at the end.
fn read_cut(refusing: &Refusing<Global>) -> Outcome {
    let mut reader = Reader::new(refusing);
    let pushed = push_cut(&mut reader);
    let at_end = fault_at_end(reader);
    Outcome::of(pushed.err().or(at_end) == Some(FileFault::MoveCut(29)))
}

// The first request is made in the first push. If it is refused, that push succeeds when it is made again.
#[test]
fn a_push_of_twenty_bytes(rt: HostRuntime) -> Result<(), Complaint> {
    refuse_each(rt.alloc(), 2, &read_cut)
}
