//! Reading a list of the levels of a set.

ghost use Rattle.std.specs.Prelude.{◌≡◌, ◌++◌, [], option_map, unwrap_or, IfOk, OnOk};
ghost use Rattle.std.specs.List.{list_all};
ghost use Rattle.std.specs.Char.{is_ascii_digit};
ghost use Rattle.csv.specs.Machine.{next_record};
ghost use Rattle.csv.specs.Reading.{default_config, strip_bom};
ghost use Rattle.csv.specs.Records.{fields_of};
ghost use Rattle.csv.specs.declared.parser.State.TheVariants as st;
ghost use Rattle.tws_pages.specs.Levels.{field, fields_in, key_from, key_of, level_in, level_of, levels_in, number_in, value_of};

use crate::level::Level;
use csv::{ByteRecord, Error, ReaderBuilder};
use std::alloc::{AllocError, Global};
use tws_file::{Bytes, Key};

/// The greatest number that is read from a list.
pub(crate) const MOST: u32 = 999_999;

// The first record of a text, if it has one.
fn first_record(alloc: Global, text: &[u8]) -> Result<Option<ByteRecord>, Error>
    ensures { IfOk result (λ o. option_map fields_of o ≡ option_map (λ p. p.0) (next_record default_config st.StartRecord [] [] (strip_bom text.now))) }
{
    let mut reader = ReaderBuilder::new()
        .has_headers(false)
        .from_reader(alloc, text);
    let mut row = ByteRecord::new(alloc);
    if reader.read_byte_record(&mut row)? {
        Ok(Some(row))
    } else {
        Ok(None)
    }
}

// The fields of a line. Reading a slice fails only if memory is refused.
fn fields_in(alloc: Global, line: &[u8]) -> Result<ByteRecord, AllocError>
    ensures { IfOk result (λ row. fields_of row ≡ fields_in line.now) }
{
    match first_record(alloc, line) {
        Ok(Some(row)) => {
            let mut row = row;
            row.trim()?;
            Ok(row)
        }
        Ok(None) => Ok(ByteRecord::new(alloc)),
        Err(_) => Err(AllocError),
    }
}

// The field at a place.
fn field(row: &ByteRecord, place: usize) -> &[u8]
    ensures { result.now ≡ field (fields_of row.now) place }
{
    match row.get(place) {
        Some(field) => field,
        None => &[],
    }
}

// The value of digits, and of a larger number the greatest.
fn value_of(digits: &[u8]) -> u32
    ensures { result ≡ value_of digits.now }
{
    let mut value = 0;
    for &digit in digits {
        value = (value * 10 + u32::from(digit.saturating_sub(b'0'))).min(MOST);
    }
    value
}

fn are_digits(text: &[u8]) -> bool
    ensures { result ≡ list_all is_ascii_digit text.now }
{
    text.iter().all(|b| b.is_ascii_digit())
}

// The number that a text is.
fn number_in(text: &[u8]) -> Option<u32>
    ensures { result ≡ number_in text.now }
{
    if text.is_empty() || !are_digits(text) {
        None
    } else {
        Some(value_of(text))
    }
}

// The key of a level with this number and password.
fn key_from(number: u32, password: &[u8]) -> Option<Key>
    ensures { result ≡ key_from number password.now }
{
    if number > 65535 {
        return None;
    }
    let number = number as u16;
    match password.as_array::<4>() {
        Some(password) => Some(Key {
            number,
            password: *password,
        }),
        None => None,
    }
}

// The key of a level with these texts.
fn key_of(number: &[u8], password: &[u8]) -> Option<Key>
    ensures { result ≡ key_of (number_in number.now) password.now }
{
    match number_in(number) {
        Some(number) => key_from(number, password),
        None => None,
    }
}

// The limit that a text says.
fn limit_of(text: &[u8]) -> u32
    ensures { result ≡ unwrap_or (number_in text.now) 0 }
{
    match number_in(text) {
        Some(limit) => limit,
        None => 0,
    }
}

// The level of a line with these fields.
fn level_of(alloc: Global, row: &ByteRecord) -> Result<Option<Level>, AllocError>
    ensures { IfOk result (λ level. level ≡ level_of (fields_of row.now)) }
{
    match key_of(field(row, 0), field(row, 1)) {
        Some(key) => {
            let name = Bytes::of(Vec::from_slice(alloc, field(row, 2))?);
            let limit = limit_of(field(row, 3));
            Ok(Some(Level { key, name, limit }))
        }
        None => Ok(None),
    }
}

// Appends the level of a line, if it has one.
fn read_line(alloc: Global, levels: &mut Vec<Level>, line: &str) -> Result<(), AllocError>
    ensures { OnOk result (levels.new.items ≡ levels.old.items ++ level_in line.now) }
{
    let row = fields_in(alloc, line.as_bytes())?;
    match level_of(alloc, &row)? {
        Some(level) => {
            levels.push(level)?;
            Ok(())
        }
        None => Ok(()),
    }
}

/// Reads a list of levels: a line for each, of its number, password, name and time limit in seconds, as comma-separated
/// values, in which a field with a comma stands in quotes. A line that does not begin with a number up to 65535 and a
/// password of four bytes says nothing, and the limit may be left out.
///
/// # Errors
///
/// Out of memory.
pub fn read_levels(alloc: Global, text: &str) -> Result<Vec<Level>, AllocError>
    ensures { IfOk result (λ levels. levels.items ≡ levels_in text.now) }
{
    let mut levels = Vec::new(alloc);
    for line in text.lines() {
        read_line(alloc, &mut levels, line)?;
    }
    Ok(levels)
}
