//! The text of a collection at one moment.

ghost use Rattle.std.specs.Prelude.{◌≡◌, ◌+◌, ◌<◌, ◌≤◌, ◌^◌, [], length, take, slice_index_or, nat_le, true, false, IfOk};
ghost use Rattle.std.specs.List.Sorted.{IsNonDecreasing, IsPartitionPoint};
ghost use Rattle.std.specs.List.{flat_map};
ghost use Rattle.std.specs.BTreeMap.{values};
ghost use Rattle.tftp_packet.specs.Blocks.{block_of, block_count};
ghost use Rattle.tws_best.specs.Best.{body_text};
ghost use Rattle.tws_best.specs.Frozen.{frozen_text, record_start};

use crate::block::{put_bodies, put_part, put_record};
use crate::bodies::BodyMap;
use crate::body::Body;
use crate::text::header_bytes;
use std::alloc::{AllocError, Allocator, Global};
use std::clone::Clone;
use std::marker::Model;
use tftp_packet::{BLOCK_SIZE, Blocks};
use tws_file::Ruleset;

// How many of the offsets, which are in rising order, are at most this one.
fn search(starts: &[u64], offset: u64) -> usize
    requires { IsNonDecreasing starts.now }
    ensures bound { result ≤ length starts.now }
    ensures point { IsPartitionPoint (λ n. nat_le n offset ≡ true) (λ n. nat_le n offset ≡ false) starts.now result }
{
    starts.partition_point(|start| *start <= offset)
}

/// The text of a collection at one moment, which later merges do not change. It shares the bodies with the collection.
#[derive(Drop)]
pub struct Snapshot<A: Allocator = Global> {
    ruleset: Ruleset,
    len: u64,
    starts: Vec<u64, A>,
    bodies: Vec<Body<A>, A>,
}

impl<A: Allocator> Model for Snapshot<A> {
    ghost use Rattle.tws_best.specs.Frozen.{Frozen};

    ghost Value = { Frozen };

    ghost use Rattle.tws_best.specs.Snapshot.{frozen_in, IsLaidOut};

    ghost view = { frozen_in };

    ghost invariant = { IsLaidOut };
}

impl<A: Allocator + Copy> Snapshot<A> {
    // A snapshot with the records of these bodies. Fails where an allocation for the two lists was refused.
    pub(crate) fn of(alloc: A, ruleset: Ruleset, best: &BodyMap<A>) -> Result<Self, AllocError>
        requires { 8 + length (flat_map body_text (values best.now)) < 2 ^ 64 }
        ensures rules { IfOk result (λ s. s.ruleset ≡ «ruleset») }
        ensures bodies { IfOk result (λ s. s.bodies ≡ values best.now) }
    {
        let mut starts = Vec::with_capacity(alloc, best.len())?;
        let mut bodies = Vec::with_capacity(alloc, best.len())?;
        let mut len = 8u64;
        for body in best.values() {
            starts.push(len)?;
            bodies.push(body.clone()?)?;
            len += 4 + u64::from(body.size());
        }
        Ok(Snapshot {
            ruleset,
            len,
            starts,
            bodies,
        })
    }
}

impl<A: Allocator> Snapshot<A> {
    /// The number of records in the text.
    pub fn record_count(&self) -> usize
        ensures { result ≡ length self.now.bodies }
    {
        self.bodies.len()
    }

    /// The offset in the text of the size field of record `i`. Records are counted from 0, and `i` is below
    /// `record_count`.
    pub fn start(&self, i: usize) -> u64
        requires { i < length self.now.bodies }
        ensures { result ≡ record_start self.now i }
    {
        self.starts[i]
    }

    /// The body of record `i`, which is the bytes after its size field. Records are counted from 0, and `i` is below
    /// `record_count`.
    pub fn body(&self, i: usize) -> &[u8]
        requires { i < length self.now.bodies }
        ensures { result.now ≡ slice_index_or self.now.bodies i [] }
    {
        self.bodies[i].as_slice()
    }

    // The record that has the byte at an offset after the header, and how many bytes of the record come before that
    // byte. At the end of the text this is the last record, with all its bytes.
    fn find(&self, offset: u64) -> (usize, usize)
        requires first { 8 < offset }
        requires last { offset ≤ length (frozen_text self.now) }
        ensures inside { result.0 < length self.now.bodies }
        ensures within { result.1 ≤ length (body_text (slice_index_or self.now.bodies result.0 [])) }
        ensures is { offset ≡ record_start self.now result.0 + result.1 }
    {
        let index = search(&self.starts, offset) - 1;
        let skip = offset - self.starts[index];
        (index, skip as usize)
    }

    // Writes block `k`, counted as in `Blocks`, to the start of `out`, and returns how many bytes it has.
    fn gather(&self, k: u16, out: &mut [u8; BLOCK_SIZE]) -> usize
        requires first { 1 ≤ k }
        requires last { k ≤ block_count (frozen_text self.now) }
        ensures bytes { take result out.new ≡ block_of (frozen_text self.now) k }
        ensures most { result ≤ BLOCK_SIZE }
    {
        if k == 1 {
            let header = put_part(out, 0, &header_bytes(self.ruleset));
            put_bodies(out, header, self.bodies.as_slice())
        } else {
            let (index, skip) = self.find(BLOCK_SIZE as u64 * (u64::from(k) - 1));
            let first = put_record(out, 0, &self.bodies[index], skip);
            put_bodies(out, first, &self.bodies[index + 1..])
        }
    }
}

impl<A: Allocator> Blocks for Snapshot<A> {
    ghost file = { frozen_text };

    fn file_len(&self) -> u64 {
        self.len
    }

    fn block(&self, k: u16, out: &mut [u8; BLOCK_SIZE]) -> usize {
        self.gather(k, out)
    }
}
