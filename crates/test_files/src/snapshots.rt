//! Snapshots of collections.

// Snapshots of collections, and the blocks in which they are sent. The expected texts are written out by hand.
use crate::collections::{has_text, load};
use std::test::Fail;
use test_samples::EMPTY_LYNX;
use tftp_packet::Blocks;
use tws_best::{Collection, Snapshot};

// The snapshot of a collection whose text is not too long.
fn snapshot_of(collection: &Collection) -> Option<Snapshot> {
    if collection.text_len() > 1_000_000 {
        return None;
    }
    collection.snapshot().ok()
}

// Level 1 with 482 moves, without them, and level 2 without moves.
const LONG_RECORD: &[u8; 20] = b"\xF2\x01\0\0\x01\0AAAA\0\0\0\0\0\0\0\0\0\0";

const SHORT_RECORD: &[u8; 20] = b"\x10\0\0\0\x02\0BBBB\0\0\0\0\0\0\0\0\0\0";

// The text of both records in order: that of level 1 ends two bytes before the end of the first block.
fn text_in_order() -> [u8; 530] {
    let mut text = [1; 530];
    text[..8].copy_from_slice(EMPTY_LYNX);
    text[8..28].copy_from_slice(LONG_RECORD);
    text[510..].copy_from_slice(SHORT_RECORD);
    text
}

// A file with the second one first.
fn text_out_of_order() -> [u8; 530] {
    let mut text = [1; 530];
    text[..8].copy_from_slice(EMPTY_LYNX);
    text[8..28].copy_from_slice(SHORT_RECORD);
    text[28..48].copy_from_slice(LONG_RECORD);
    text
}

#[test]
fn text_of_two_records(rt: HostRuntime) -> Result<(), Fail> {
    let collection = load(rt.alloc(), &text_out_of_order())?;
    let has_text = has_text(rt.alloc(), &collection, &text_in_order());
    assert_eq!(rt; (collection.text_len(), has_text), (530, true));
    Ok(())
}

// Where the records of a snapshot of two begin, and how many bytes their bodies have; zeros unless there are two.
fn places(snapshot: &Snapshot) -> ([u64; 2], [usize; 2]) {
    if snapshot.record_count() != 2 {
        return ([0; 2], [0; 2]);
    }
    let starts = [snapshot.start(0), snapshot.start(1)];
    let lengths = [snapshot.body(0).len(), snapshot.body(1).len()];
    (starts, lengths)
}

// Whether a snapshot has two blocks, of which the first ends with these bytes, and the second is these.
fn has_two_blocks(snapshot: &Snapshot, first_end: &[u8], second: &[u8]) -> bool {
    if snapshot.file_len() != 530 {
        return false;
    }
    let mut out = [0; 512];
    let first_size = snapshot.block(1, &mut out);
    let is_first = first_size == 512 && out.ends_with(first_end);
    let size = snapshot.block(2, &mut out);
    is_first && &out[..size] == second
}

fn is_snapshot_of_two(snapshot: &Snapshot) -> bool {
    let second = b"\0\0\x02\0BBBB\0\0\0\0\0\0\0\0\0\0";
    places(snapshot) == ([8, 510], [498, 16]) && has_two_blocks(snapshot, b"\x10\0", second)
}

#[test]
fn blocks_of_two_records(rt: HostRuntime) -> Result<(), Fail> {
    let collection = load(rt.alloc(), &text_out_of_order())?;
    let is_right = match snapshot_of(&collection) {
        Some(snapshot) => is_snapshot_of_two(&snapshot),
        None => false,
    };
    assert!(rt; is_right);
    Ok(())
}
