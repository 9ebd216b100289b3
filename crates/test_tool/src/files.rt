//! The commands for files at a writer with little room.

// The commands on files over readers and writers that fail.
use crate::streams::*;
use std::io;
use std::test::Fail;
use test_samples::{EMPTY_LYNX, HUNDRED};
use tws_file::{FileFault, Key, Ruleset};
use tws_tool::{INPUT_READS, ToolFault, run_best, run_show, run_without};

// The result of `best` for these inputs, and how many bytes it writes.
fn best_of<R: io::Read>(rt: &HostRuntime, files: &mut [R]) -> (Result<(), ToolFault>, usize) {
    let mut out = Vec::new(rt.alloc());
    let mut errors: Vec<u8> = Vec::new(rt.alloc());
    let done = run_best(
        rt.alloc(),
        Ruleset::Lynx,
        &[],
        0,
        files,
        &mut out,
        &mut errors,
    );
    (done, out.len())
}

// The result of `show` for this input, and how many bytes it writes.
fn show_of<R: io::Read>(rt: &HostRuntime, input: &mut R) -> (Result<(), ToolFault>, usize) {
    let mut out = Vec::new(rt.alloc());
    let done = run_show(rt.alloc(), input, &mut out, false);
    (done, out.len())
}

// A level that is not solved, and a pad.
const UNSOLVED: [u8; 22] = [
    0x35, 0x33, 0x9B, 0x99, 0x01, 0x00, 0x00, 0x00, 0x06, 0x00, 0x00, 0x00, 0x01, 0x00, 0x42, 0x44,
    0x48, 0x50, 0x00, 0x00, 0x00, 0x00,
];

// Whatever is written before the writer fails is a proper prefix of the listing.
#[test]
fn show_to_a_writer_with_little_room(rt: HostRuntime) {
    let listing = b"ruleset lynx word 0000 extra 0\nlevel 1 BDHP\npad\nrecords 2\n";
    for j in 0..listing.len() {
        let mut room = [0u8; 58];
        let mut out = &mut room[..j];
        let mut input = UNSOLVED.as_slice();
        let done = run_show(rt.alloc(), &mut input, &mut out, false);
        assert_eq!(rt;
            (done, room.get(..j)),
            (Err(ToolFault::Write), listing.get(..j))
        );
    }
}

// Nothing is written where there is no room for what is to be said.
#[test]
fn without_to_a_terminal_with_little_room(rt: HostRuntime) {
    let key = Key {
        number: 1,
        password: *b"BDHP",
    };
    let mut out = Vec::new(rt.alloc());
    let mut room = [0u8; 20];
    let mut errors = room.as_mut_slice();
    let mut input = UNSOLVED.as_slice();
    let done = run_without(rt.alloc(), key, &mut input, &mut out, &mut errors);
    assert_eq!(rt;
        (done, out.len(), room.as_slice()),
        (Err(ToolFault::Write), 0, b"tws: no solution of ".as_slice())
    );
}

// Eight bytes that do not begin a file: the signature is wrong.
const UNSIGNED: [u8; 8] = [0x35, 0x33, 0x9B, 0x98, 2, 0, 0, 0];

// The reader fails after a part of a record, after a header that would be a file, and after bytes that have a fault,
// which is then not the one that is reported.
#[test]
fn an_input_that_breaks(rt: HostRuntime) {
    let file = HUNDRED.as_slice();
    for bytes in [&file[..10], &file[..8], &UNSIGNED[..8]] {
        let mut input = Breaks {
            bytes: Some(bytes),
            kind: io::ErrorKind::Other,
        };
        assert_eq!(rt; show_of(&rt, &mut input), (Err(ToolFault::Read), 0));
    }
}

// An input that failed is not read again, although it would then return a whole file.
#[test]
fn an_input_that_stumbles(rt: HostRuntime) {
    let mut input = Stumbles {
        bytes: HUNDRED,
        has_failed: false,
    };
    assert_eq!(rt; show_of(&rt, &mut input), (Err(ToolFault::Read), 0));
}

#[test]
fn an_input_that_does_not_end(rt: HostRuntime) {
    let mut input = Drops { left: u32::MAX };
    let shown = show_of(&rt, &mut input);
    assert_eq!(rt;
        (shown, input.left),
        ((Err(ToolFault::Read), 0), u32::MAX - INPUT_READS)
    );
}

// The last read that is allowed finds the end.
#[test]
fn an_input_that_ends_at_the_last_read(rt: HostRuntime) {
    let mut input = Drops {
        left: INPUT_READS - 1,
    };
    let fault = ToolFault::Unreadable {
        index: 0,
        fault: FileFault::BadSignature,
    };
    assert_eq!(rt; show_of(&rt, &mut input), (Err(fault), 0));
}

// Returns bytes, or fails.
#[derive(Drop)]
pub(crate) enum Input<'a> {
    Whole(&'a [u8]),
    Failing,
}

impl io::Read for Input<'_> {
    fn read(&mut self, buf: &mut [u8]) -> io::Result<usize> {
        match self {
            Input::Whole(bytes) => bytes.read(buf),
            Input::Failing => Err(io::Error::from(io::ErrorKind::Other)),
        }
    }
}

#[test]
fn best_answers_the_first_input_that_fails(rt: HostRuntime) {
    let fault = ToolFault::Unreadable {
        index: 0,
        fault: FileFault::BadSignature,
    };
    let mut files = [Input::Whole(&UNSIGNED), Input::Failing];
    assert_eq!(rt; best_of(&rt, &mut files), (Err(fault), 0));
}

// A text, and then another so often.
fn repeated(rt: &HostRuntime, first: &[u8], each: &[u8], count: u32) -> Result<Vec<u8>, Fail> {
    let mut text = Vec::from_slice(rt.alloc(), first)?;
    for _ in 0..count {
        text.extend_from_slice(each)?;
    }
    Ok(text)
}

// Whether a writer that takes 70,000 bytes of this listing fails, and has these.
fn fails_after_70_000(rt: &HostRuntime, bytes: &[u8], listing: &[u8]) -> bool {
    let mut room = [0u8; 70_000];
    let mut out = room.as_mut_slice();
    let mut input = bytes;
    let done = run_show(rt.alloc(), &mut input, &mut out, false);
    done == Err(ToolFault::Write) && Some(room.as_slice()) == listing.get(..70_000)
}

// The same for a Lynx file of 6,000 records that have only a level's password.
fn fails_late(rt: &HostRuntime) -> Result<bool, Fail> {
    let record = [6, 0, 0, 0, 1, 0, 0x42, 0x44, 0x48, 0x50];
    let bytes = repeated(rt, EMPTY_LYNX, &record, 6000)?;
    let head = b"ruleset lynx word 0000 extra 0\n";
    let listing = repeated(rt, head, b"level 1 BDHP\n", 6000)?;
    Ok(fails_after_70_000(rt, &bytes, &listing))
}

#[test]
fn show_to_a_writer_that_fails_late(rt: HostRuntime) -> Result<(), Fail> {
    assert!(rt; fails_late(&rt)?);
    Ok(())
}
