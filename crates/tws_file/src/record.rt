//! The records of a solution file.

ghost use Rattle.std.specs.Prelude.{◌≡◌, ◌++◌};
ghost use Rattle.tws_file.specs.Record.{record_of};
ghost use Rattle.tws_file.specs.Text.{IsRecord, record_text};
ghost use Rattle.tws_file.specs.Steps.{tail_of};

use crate::bytes::Bytes;
use crate::fields::{push_key, push_u32};
use crate::key::Key;
use crate::solution::Solution;
use byte_output::Buffer;
use std::alloc::{Allocator, Global};

/// A record of a solution file, which is a header followed by records.
#[derive(Drop)]
#[derive_where(Debug)]
pub enum Record<A: Allocator = Global> {
    /// A record of size 0, which is empty.
    Pad,
    /// The record of the level set, whose key is all zero: the bytes after the key, where Tile World writes the set's name.
    /// They are kept as they are.
    Set { rest: Bytes<A> },
    /// A level that is known and not solved.
    Bare { key: Key },
    /// A level and how it was solved.
    Solution(Solution<A>),
}

impl<A: Allocator> Record<A> {
    /// The text up to the part that may be long.
    pub(crate) fn head(&self) -> Buffer<20>
        requires { IsRecord (record_of self.now) }
        ensures { result ++ tail_of (record_of self.now) ≡ record_text (record_of self.now) }
    {
        let mut head = Buffer::new();
        match self {
            Record::Pad => push_u32(&mut head, 0),
            Record::Set { rest } => {
                push_u32(&mut head, 6 + rest.len() as u32);
                push_key(&mut head, Key::SET);
            }
            Record::Bare { key } => {
                push_u32(&mut head, 6);
                push_key(&mut head, *key);
            }
            Record::Solution(solution) => {
                push_u32(&mut head, solution.body_len());
                head.push(solution.fields().as_slice());
            }
        }
        head
    }

    /// The part of the text that may be long: all after the key of the set, or a solution's moves.
    pub(crate) fn tail(&self) -> &[u8]
        ensures { result.now ≡ tail_of (record_of self.now) }
    {
        match self {
            Record::Pad | Record::Bare { .. } => &[],
            Record::Set { rest } => rest.as_slice(),
            Record::Solution(solution) => solution.moves.as_slice(),
        }
    }
}
