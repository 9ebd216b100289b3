//! How a level was solved.

ghost use Rattle.std.specs.Prelude.{◌≡◌, ◌≤◌, ◌++◌, length, IfOk};
ghost use Rattle.std.specs.Cmp.Lexicographic.{slice_cmp};
ghost use Rattle.std.specs.Ordering.{nat_cmp};
ghost use Rattle.tws_file.specs.Text.{solution, body_of};

use crate::bytes::Bytes;
use crate::fields::{push_key, push_u32};
use crate::key::Key;
use byte_output::Buffer;
use std::alloc::{AllocError, Allocator, Global};
use std::cmp::Ordering;
use std::marker::Model;

/// How a level was solved.
///
/// Each value has a text: the key is not that of the level set, no move is cut, and the body's size fits in four
/// bytes.
#[derive(Drop)]
#[derive_where(Debug)]
pub struct Solution<A: Allocator = Global> {
    /// The level.
    pub key: Key,
    /// Tile World's own bits, kept as they are.
    pub flags: u8,
    /// Bits 0 to 2 are the initial slide direction, bits 3 to 5 the stepping value. None of it is checked.
    pub start: u8,
    /// The random seed.
    pub seed: u32,
    /// The time that the solution takes, in ticks of 1/20 second.
    pub ticks: u32,
    /// The moves as the file spells them.
    pub moves: Bytes<A>,
}

impl<A: Allocator> Model for Solution<A> {
    ghost use Rattle.tws_file.specs.Text.{Solution as Solved, IsSolution};

    ghost Value = { Solved };

    ghost use Rattle.tws_file.specs.Solution.{solution_of};

    ghost view = { solution_of };

    ghost invariant = { λ s. IsSolution (solution_of s) };
}

impl<A: Allocator> Solution<A> {
    /// The body up to the moves.
    pub(crate) fn fields(&self) -> Buffer<16>
        ensures bytes { result ++ self.now.moves ≡ body_of (solution self.now) }
        ensures size { length result ≡ 16 }
    {
        let mut fields = Buffer::new();
        push_key(&mut fields, self.key);
        fields.push(&[self.flags, self.start]);
        push_u32(&mut fields, self.seed);
        push_u32(&mut fields, self.ticks);
        fields
    }

    /// The length of the body in bytes, which is what the record's size field holds.
    pub fn body_len(&self) -> u32
        ensures { result ≡ length (body_of (solution self.now)) }
    {
        16 + self.moves.len() as u32
    }

    /// Compares the record's body with `bytes`, of which there are at least 16, byte by byte. The body is not built for
    /// the comparison.
    pub fn cmp_body(&self, bytes: &[u8]) -> Ordering
        requires { 16 ≤ length bytes.now }
        ensures { result ≡ slice_cmp nat_cmp (body_of (solution self.now)) bytes.now }
    {
        let (fields, moves) = bytes.split_at(16);
        match self.fields().as_slice().cmp(fields) {
            Ordering::Equal => self.moves.as_slice().cmp(moves),
            order => order,
        }
    }

    /// Returns the body of the record: all after its size field.
    ///
    /// # Errors
    ///
    /// Fails if an allocation was refused.
    pub fn body<B: Allocator>(&self, alloc: B) -> Result<Vec<u8, B>, AllocError>
        ensures { IfOk result (λ body. body.items ≡ body_of (solution self.now)) }
    {
        let mut body = Vec::with_capacity(alloc, self.body_len() as usize)?;
        body.extend_from_slice(self.fields().as_slice())?;
        body.extend_from_slice(self.moves.as_slice())?;
        Ok(body)
    }
}
