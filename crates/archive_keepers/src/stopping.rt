//! Counts the solutions in a file's text that stop Tile World.

ghost use Rattle.std.specs.Prelude.{◌≡◌, ◌+◌, ◌≤◌, ◌++◌, ℕ, List, [], length, take, count_by, IfOk, IfErr, IfSome, IsSomeAnd, IsNone};
ghost use Rattle.std.specs.List.{flat_map, AllByRecursion};
ghost use Rattle.tws_file.specs.Fields.{key_bytes, IsKey};
ghost use Rattle.tws_file.specs.Text.{File, Record, IsRecord, IsText, body_of, record_text};
ghost use Rattle.tws_best.specs.Best.{collection_text};
ghost use Rattle.archive_keepers.specs.Readable.{stops_tile_world, stopping};

use archive_table::KeepFault;
use byteorder::{ByteOrder, LittleEndian};
use std::alloc::{Allocator, Global};
use tws_best::Collection;
use tws_file::Key;

// The key that a body begins with.
fn read_key(body: &[u8]) -> Key
    requires { 6 ≤ length body.now }
    ensures fits { IsKey result }
    ensures bytes { key_bytes result ≡ take 6 body.now }
{
    Key {
        number: LittleEndian::read_u16(body),
        password: [body[2], body[3], body[4], body[5]],
    }
}

// Whether the record with this body stops Tile World.
fn stops(body: &[u8]) -> bool
    ensures { (r : Record) → IsRecord r → body.now ≡ body_of r → result ≡ stops_tile_world r }
{
    if body.len() < 16 {
        return false;
    }
    let key = read_key(body);
    if key.is_level_set() {
        return false;
    }
    body.len() == 16 || key.number == 0
}

// The body of the record that the bytes begin with, and the bytes after it; `None` if it is cut.
fn first_record(bytes: &[u8]) -> Option<(&[u8], &[u8])>
    ensures whole { (r : Record) (more : List ℕ) → IsRecord r → bytes.now ≡ record_text r ++ more → IsSomeAnd result (λ one. (one.0.now ≡ body_of r) × (one.1.now ≡ more)) }
    ensures none { bytes.now ≡ [] → IsNone result }
    ensures shorter { IfSome result (λ one. 4 + length one.1.now ≤ length bytes.now) }
{
    if bytes.len() < 4 {
        return None;
    }
    let size = LittleEndian::read_u32(bytes) as usize;
    let (_, rest) = bytes.split_at(4);
    if rest.len() < size {
        return None;
    }
    Some(rest.split_at(size))
}

// How many records stop Tile World, of those with this text.
fn count_in(records: &[u8]) -> usize
    ensures { (rs : List Record) → AllByRecursion IsRecord rs → records.now ≡ flat_map record_text rs → result ≡ count_by stops_tile_world rs }
{
    let mut count = 0;
    let mut rest = records;
    while let Some((body, after)) = first_record(rest) {
        if stops(body) {
            count += 1;
        }
        rest = after;
    }
    count
}

// The text of the records after a file's header.
fn records_in(text: &[u8]) -> &[u8]
    ensures { (file : File) → IsText text.now file → result.now ≡ flat_map record_text file.records }
{
    if text.len() < 8 {
        return text;
    }
    let (header, rest) = text.split_at(8);
    let count = usize::from(header[7]);
    if rest.len() < count {
        return rest;
    }
    let (_, records) = rest.split_at(count);
    records
}

/// How many solutions in a file's text stop Tile World. Any number if it is not a file's text.
pub(crate) fn stopping_in(text: &[u8]) -> usize
    ensures { (file : File) → IsText text.now file → result ≡ stopping file }
{
    count_in(records_in(text))
}

/// How many solutions in a collection stop Tile World, of which a text is made to count them.
///
/// # Errors
///
/// `Memory` if an allocation was refused.
pub(crate) fn stopping_of<A: Allocator>(
    alloc: Global,
    collection: &Collection<A>,
) -> Result<usize, KeepFault>
    ensures count { (file : File) → IsText (collection_text collection.now) file → IfOk result (λ count. count ≡ stopping file) }
    ensures fault { IfErr result (λ e. e ≡ KeepFault.Memory) }
{
    let mut text = Vec::new(alloc);
    match collection.write_text(&mut text) {
        Ok(()) => Ok(stopping_in(&text)),
        Err(_) => Err(KeepFault::Memory),
    }
}
