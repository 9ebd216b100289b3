//! Collections whose requests for memory are refused.

// Merging files into a collection and loading them, and making copies and snapshots of collections.
use crate::answers::has_text;
use refusing::{Complaint, Outcome, Refusing, refuse_each};
use std::alloc::{Allocator, Global};
use test_samples::{EMPTY_LYNX, HUNDRED};
use tftp_packet::Blocks;
use tws_best::Collection;
use tws_file::{Ruleset, TwsFile};
use tws_reader::read_file;

// A Lynx file of level 1 AAAA in 50 ticks, level 2 BBBB in 60 and level 4 DDDD in 70. A collection of it alone has the
// same text.
const THREE: &[u8; 68] =
    b"\x35\x33\x9B\x99\x01\0\0\0\x10\0\0\0\x01\0AAAA\0\0\0\0\0\0\x32\0\0\0\x10\0\0\0\x02\0BBBB\0\0\0\0\0\0\x3C\0\0\0\x10\0\0\0\x04\0DDDD\0\0\0\0\0\0\x46\0\0\0";

// A Lynx file of level 2 BBBB in 20 ticks, a pad, and level 1 CCCC in 10, which HUNDRED does not have.
const TWO_AND_A_PAD: &[u8; 52] =
    b"\x35\x33\x9B\x99\x01\0\0\0\x10\0\0\0\x02\0BBBB\0\0\0\0\0\0\x14\0\0\0\0\0\0\0\x10\0\0\0\x01\0CCCC\0\0\0\0\0\0\x0A\0\0\0";

// A collection of a file; if there is none, what the run comes to.
fn load<A: Allocator + Copy>(alloc: A, file: &TwsFile) -> Result<Collection<A>, Outcome> {
    match Collection::load(alloc, file) {
        Ok(collection) => Ok(collection),
        Err(_) => Err(Outcome::OutOfMemory),
    }
}

// The same for the file with this text.
fn load_text<'a>(
    refusing: &'a Refusing<Global>,
    text: &[u8],
) -> Result<Collection<&'a Refusing<Global>>, Outcome> {
    match read_file(refusing.inner, text) {
        Ok(file) => load(refusing, &file),
        Err(_) => Err(Outcome::Wrong),
    }
}

// ---- merging

// Merges a file of two more solutions into a collection of one. It then has a header of 8 bytes and three records of
// 20, or still the text of the one.
fn merge<A: Allocator + Copy>(
    global: Global,
    collection: &mut Collection<A>,
    two: &TwsFile,
) -> Outcome {
    match collection.merge(two) {
        Ok(changed) => {
            Outcome::of(changed && collection.len() == 3 && collection.text_len() == 68)
        }
        Err(_) => Outcome::refused(has_text(global, collection, HUNDRED)),
    }
}

fn merge_two<A: Allocator + Copy>(global: Global, collection: &mut Collection<A>) -> Outcome {
    match read_file(global, TWO_AND_A_PAD) {
        Ok(two) => merge(global, collection, &two),
        Err(_) => Outcome::Wrong,
    }
}

// ---- copies and snapshots

// Whether the copy of a collection is empty.
fn has_empty_copy<A: Allocator + Copy>(global: Global, collection: &Collection<A>) -> bool {
    match collection.copy() {
        Ok(copy) => has_text(global, &copy, EMPTY_LYNX),
        Err(_) => false,
    }
}

// The same for an empty one.
fn is_copied_empty(refusing: &Refusing<Global>) -> bool {
    let collection = Collection::new(refusing, Ruleset::Lynx);
    has_empty_copy(refusing.inner, &collection)
}

// The same, and how many requests for memory are made.
fn copy_empty(global: Global) -> (bool, u64) {
    let refusing = Refusing::new(global, 1);
    let is_copied = is_copied_empty(&refusing);
    (is_copied, refusing.requests())
}

// Neither the empty collection nor its copy makes a request.
#[test]
fn empty_collections(rt: HostRuntime) {
    assert_eq!(rt; copy_empty(rt.alloc()), (true, 0));
}

// What a call comes to that must leave the collection of the three solutions unchanged.
fn unless_changed<A: Allocator + Copy>(
    global: Global,
    collection: &Collection<A>,
    outcome: Outcome,
) -> Outcome {
    if has_text(global, collection, THREE) {
        outcome
    } else {
        Outcome::Wrong
    }
}

fn copy<A: Allocator + Copy>(global: Global, collection: &Collection<A>) -> Outcome {
    match collection.copy() {
        Ok(copy) => Outcome::of(has_text(global, &copy, THREE)),
        Err(_) => Outcome::OutOfMemory,
    }
}

// Whether a file has this text, in a single block.
fn is_block(blocks: &impl Blocks, text: &[u8]) -> bool {
    let mut out = [0; 512];
    let size = blocks.block(1, &mut out);
    blocks.file_len() < 512 && &out[..size] == text
}

fn snapshot<A: Allocator + Copy>(collection: &Collection<A>) -> Outcome {
    if collection.text_len() > 1_000_000 {
        return Outcome::Wrong;
    }
    match collection.snapshot() {
        Ok(snapshot) => Outcome::of(is_block(&snapshot, THREE)),
        Err(_) => Outcome::OutOfMemory,
    }
}

// ---- what is done with a collection of a file

#[derive(Clone, Copy)]
enum Deed {
    Merge,
    Load,
    Copy,
    Snapshot,
}

fn perform<A: Allocator + Copy>(
    global: Global,
    collection: &mut Collection<A>,
    deed: Deed,
) -> Outcome {
    match deed {
        Deed::Merge => merge_two(global, collection),
        Deed::Load => Outcome::of(has_text(global, collection, THREE)),
        Deed::Copy => unless_changed(global, collection, copy(global, collection)),
        Deed::Snapshot => unless_changed(global, collection, snapshot(collection)),
    }
}

// Does it with a collection of the file with this text.
fn load_and_perform(refusing: &Refusing<Global>, text: &[u8], deed: Deed) -> Outcome {
    match load_text(refusing, text) {
        Ok(mut collection) => perform(refusing.inner, &mut collection, deed),
        Err(outcome) => outcome,
    }
}

fn merge_into_one(refusing: &Refusing<Global>) -> Outcome {
    load_and_perform(refusing, HUNDRED, Deed::Merge)
}

fn load_three(refusing: &Refusing<Global>) -> Outcome {
    load_and_perform(refusing, THREE, Deed::Load)
}

fn copy_three(refusing: &Refusing<Global>) -> Outcome {
    load_and_perform(refusing, THREE, Deed::Copy)
}

fn snapshot_three(refusing: &Refusing<Global>) -> Outcome {
    load_and_perform(refusing, THREE, Deed::Snapshot)
}

#[test]
fn merging_into_one_solution(rt: HostRuntime) -> Result<(), Complaint> {
    refuse_each(rt.alloc(), 5, &merge_into_one)
}

#[test]
fn loading(rt: HostRuntime) -> Result<(), Complaint> {
    refuse_each(rt.alloc(), 3, &load_three)
}

#[test]
fn copying(rt: HostRuntime) -> Result<(), Complaint> {
    refuse_each(rt.alloc(), 5, &copy_three)
}

#[test]
fn snapshots(rt: HostRuntime) -> Result<(), Complaint> {
    refuse_each(rt.alloc(), 5, &snapshot_three)
}
