//! Files that are read in pieces.

// Files that arrive in pieces, most of them byte by byte.
ghost use Rattle.std.specs.Prelude.{◌≤◌};

use crate::files::is_written_as;
use std::alloc::Global;
use std::test::Fail;
use test_samples::{CUT_MOVE, EMPTY_MS, HUNDRED};
use tws_file::FileFault;
use tws_reader::Reader;

// Pushes a byte at a time. Returns the number of the first push that failed, and the reader.
fn push_bytes(alloc: Global, bytes: &[u8]) -> (Option<usize>, Reader) {
    let mut reader = Reader::new(alloc);
    let mut first = None;
    for i in 0..bytes.len() {
        if reader.push(&bytes[i..i + 1]).is_err() && first.is_none() {
            first = Some(i + 1);
        }
    }
    (first, reader)
}

// Whether a reader has read the file with this text.
fn has_read(alloc: Global, reader: Reader, text: &[u8]) -> bool {
    match reader.finish() {
        Ok(file) => is_written_as(alloc, &file, text),
        Err(_) => false,
    }
}

// Whether HUNDRED is read in two pieces, of which the first has `at` bytes.
fn is_read_in_two(alloc: Global, at: usize) -> bool
    requires { at ≤ 28 }
{
    let (first, rest) = HUNDRED.split_at(at);
    let mut reader = Reader::new(alloc);
    if reader.push(first).is_err() || reader.push(rest).is_err() {
        return false;
    }
    has_read(alloc, reader, HUNDRED)
}

#[test]
fn a_solution_that_comes_in_pieces(rt: HostRuntime) {
    for at in 1..28usize {
        assert!(rt; is_read_in_two(rt.alloc(), at), "at {at}");
    }
    let (first, reader) = push_bytes(rt.alloc(), HUNDRED);
    assert_eq!(rt;
        (first, has_read(rt.alloc(), reader, HUNDRED)),
        (None, true)
    );
}

#[test]
fn moves_that_are_cut_byte_by_byte(rt: HostRuntime) {
    let (first, reader) = push_bytes(rt.alloc(), CUT_MOVE);
    assert_eq!(rt;
        (first, reader.finish().err()),
        (Some(30), Some(FileFault::MoveCut(29)))
    );
}

#[test]
fn moves_that_are_cut_between_pieces(rt: HostRuntime) {
    let mut reader = Reader::new(rt.alloc());
    let (first, rest) = CUT_MOVE.split_at(29);
    let pushed = (reader.push(first), reader.push(rest), reader.push(&[0xFF]));
    let cut = FileFault::MoveCut(29);
    assert_eq!(rt;
        (pushed, reader.finish().err()),
        ((Ok(()), Err(cut), Err(cut)), Some(cut))
    );
}

// The header is read once it is whole.
#[test]
fn a_wrong_signature_byte_by_byte(rt: HostRuntime) {
    let mut wrong = *EMPTY_MS;
    wrong[3] = 0x98;
    let (first, reader) = push_bytes(rt.alloc(), &wrong);
    assert_eq!(rt;
        (first, reader.finish().err()),
        (Some(8), Some(FileFault::BadSignature))
    );
}
