//! The list of a file's records.

ghost use Rattle.std.specs.Prelude.{◌≡◌, [], ◌++◌, length, take, IsTrue, ◌↔◌, OnOk, OnErr};
ghost use Rattle.tws_file.specs.Record.{records_of};

use crate::record::Record;
use std::alloc::{AllocError, Allocator, Global};
use std::marker::Model;

/// The records of a file, in order.
#[derive(Drop)]
#[derive_where(Debug)]
pub struct Records<A: Allocator = Global> {
    records: Vec<Record<A>, A>,
}

impl<A: Allocator> Model for Records<A> {
    ghost use Rattle.std.specs.Prelude.{List};
    ghost use Rattle.tws_file.specs.Text.{Record as Plain};
    ghost use Rattle.tws_file.specs.Record.{records_of};

    ghost Value = { List Plain };

    ghost view = { λ r. records_of r.records.items };
}

impl<A: Allocator> Records<A> {
    /// The records of a vector. Does not allocate.
    pub fn of(records: Vec<Record<A>, A>) -> Self
        ensures { result ≡ records_of records.items }
    {
        Records { records }
    }

    /// Appends records. An empty list takes the vector over, without copying.
    ///
    /// # Errors
    ///
    /// Out of memory. Nothing changes.
    pub fn append(&mut self, more: Vec<Record<A>, A>) -> Result<(), AllocError>
        ensures ok { OnOk result (self.new ≡ self.old ++ records_of more.items) }
        ensures err { OnErr result (self.new ≡ self.old) }
    {
        if self.is_empty() {
            *self = Records::of(more);
            return Ok(());
        }
        let mut more = more;
        self.records.append(&mut more)
    }

    /// Keeps the first `count` records.
    pub fn truncate(&mut self, count: usize)
        ensures { self.new ≡ take count self.old }
    {
        self.records.truncate(count);
    }

    /// Borrows the records, in order.
    pub fn as_slice(&self) -> &[Record<A>]
        ensures { records_of result.now ≡ self.now }
    {
        self.records.as_slice()
    }

    /// Returns the vector. Does not allocate.
    pub fn into_vec(self) -> Vec<Record<A>, A>
        ensures { records_of result.items ≡ self }
    {
        self.records
    }

    /// The number of records.
    pub fn len(&self) -> usize
        ensures { result ≡ length self.now }
    {
        self.records.len()
    }

    /// Whether there are none.
    pub fn is_empty(&self) -> bool
        ensures { IsTrue result ↔ (self.now ≡ []) }
    {
        self.records.is_empty()
    }
}
