//! The name of the level set of a file.

ghost use Rattle.std.specs.Prelude.{◌≡◌, ◌==◌, Some, position, drop, take, option_copied};
ghost use Rattle.tws_file.specs.Record.{record_of, records_of};
ghost use Rattle.tws_pages.specs.SetName.{before_zero, name_in, first_name, set_name_of, shown_byte, shown_name};

use std::alloc::Allocator;
use std::fmt;
use tws_file::{Record, TwsFile};

/// Where a set record has the set's name, in bytes after its key: Tile World writes zero bytes before it.
pub(crate) const NAME_AT: usize = 10;

/// How many bytes of a level set's name are shown at most.
pub const SHOWN_NAME: usize = 64;

// The bytes from the name on.
fn after_zeros(rest: &[u8]) -> &[u8]
    ensures { result.now ≡ drop NAME_AT rest.now }
{
    if rest.len() < NAME_AT {
        &[]
    } else {
        &rest[NAME_AT..]
    }
}

// Where the first zero byte is.
fn first_zero(bytes: &[u8]) -> Option<usize>
    ensures { result ≡ position (λ b. b == 0) bytes.now }
{
    bytes.iter().position(|b| *b == 0)
}

// The bytes before the first zero byte, or all.
fn before_zero(bytes: &[u8]) -> &[u8]
    ensures { result.now ≡ before_zero bytes.now }
{
    match first_zero(bytes) {
        Some(end) => &bytes[..end],
        None => bytes,
    }
}

// The name in a set record, which may be empty; other records have none.
fn name_in<B: Allocator>(one: &Record<B>) -> &[u8]
    ensures { result.now ≡ name_in (record_of one.now) }
{
    match one {
        Record::Set { rest } => before_zero(after_zeros(rest.as_slice())),
        Record::Pad | Record::Bare { .. } | Record::Solution(_) => &[],
    }
}

/// The name in the first of these records.
pub(crate) fn first_name<B: Allocator>(records: &[Record<B>]) -> Option<&[u8]>
    ensures { option_copied result ≡ first_name (records_of records.now) }
{
    let name = name_in(records.first()?);
    if name.is_empty() { None } else { Some(name) }
}

/// The name of the level set that a file was played on, as Tile World keeps it in the first record. `None` if that is no
/// set record, or its name is empty.
///
/// The name may be of any bytes but zero: `ShownName` shows it.
pub fn set_name<B: Allocator>(file: &TwsFile<B>) -> Option<&[u8]>
    ensures { option_copied result ≡ set_name_of file.now }
{
    let records = file.records.as_slice();
    first_name(records)
}

/// A byte of a name as it is shown: one that is not printable ASCII as `?`.
pub(crate) fn shown_byte(byte: u8) -> u8
    ensures { result ≡ shown_byte byte }
{
    if (b' '..=b'~').contains(&byte) {
        byte
    } else {
        b'?'
    }
}

/// Not more of a long name than is shown.
pub(crate) fn cut(name: &[u8]) -> &[u8]
    ensures { result.now ≡ take SHOWN_NAME name.now }
{
    if name.len() > SHOWN_NAME {
        &name[..SHOWN_NAME]
    } else {
        name
    }
}

/// Displays the name of a level set: at most the first `SHOWN_NAME` bytes, each that is not printable ASCII as `?`.
#[derive(Clone, Copy, Debug)]
pub struct ShownName<'a>(pub &'a [u8]);

impl fmt::Display for ShownName<'_> {
    ghost output = { λ name. Some (shown_name name.0.now) };

    fn fmt<W: fmt::Write>(&self, f: &mut fmt::Formatter<W>) -> fmt::Result {
        let shown = cut(self.0);
        for &byte in shown {
            f.write_char(char::from(shown_byte(byte)))?;
        }
        Ok(())
    }
}
