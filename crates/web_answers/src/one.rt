//! A text of one file.

ghost use Rattle.std.specs.Prelude.{[], ◌∷◌, IfOk, IfErr};
ghost use Rattle.tws_file.specs.Packing.{packed_text};
ghost use Rattle.tws_tables.specs.Csv.{csv_of};
ghost use Rattle.tws_pages.specs.Page.{page_of};
ghost use Rattle.tws_file.specs.Text.{IsText};
ghost use Rattle.web_answers.specs.Answers.{Answers, FailsAlone};

use crate::web_fault::WebFault;
use std::alloc::Allocator;
use tws_file::{TwsFile, pack, write_file};
use tws_pages::write_page;
use tws_reader::read_file;
use tws_tables::write_csv;

// The file with this text.
fn read<A: Allocator + Copy>(alloc: A, bytes: &[u8]) -> Result<TwsFile<A>, WebFault>
    ensures read { IfOk result (IsText bytes.now) }
    ensures fails { IfErr result (FailsAlone bytes.now) }
{
    match read_file(alloc, bytes) {
        Ok(file) => Ok(file),
        Err(fault) => Err(WebFault::first(fault)),
    }
}

// No line of comma-separated values is longer: ten columns of at most 5, 9, 10, 12, 10, 10, 2, 2, 10 and 4 characters.
const LINE: usize = 84;

/// The file's solutions as comma-separated values.
///
/// # Errors
///
/// `First` with the fault of the bytes, or `Memory` if an allocation was refused.
pub fn csv<A: Allocator + Copy>(alloc: A, bytes: &[u8]) -> Result<Vec<u8, A>, WebFault>
    ensures answers { IfOk result (λ text. Answers csv_of bytes.now text.items) }
    ensures fails { IfErr result (FailsAlone bytes.now) }
{
    let file = read(alloc, bytes)?;
    let mut text = Vec::new(alloc);
    // Room for the whole text at once is touched once. Where it is refused, the text grows as it needs to.
    let _ = text.reserve(file.records.len().saturating_add(1).saturating_mul(LINE));
    let written = write_csv(alloc, &file, &mut text);
    drop(file);
    written?;
    Ok(text)
}

/// A page of HTML of the file.
///
/// # Errors
///
/// `First` with the fault of the bytes, or `Memory` if an allocation was refused.
pub fn page<A: Allocator + Copy>(alloc: A, bytes: &[u8]) -> Result<Vec<u8, A>, WebFault>
    ensures answers { IfOk result (λ text. Answers (λ file. page_of (file ∷ [])) bytes.now text.items) }
    ensures fails { IfErr result (FailsAlone bytes.now) }
{
    let file = read(alloc, bytes)?;
    let mut text = Vec::new(alloc);
    let mut files = Vec::new(alloc);
    files.push(file)?;
    let written = write_page(alloc, &files, &mut text);
    drop(files);
    written?;
    Ok(text)
}

/// The file with its moves in the fewest bytes.
///
/// # Errors
///
/// `First` with the fault of the bytes, or `Memory` if an allocation was refused.
pub fn packed<A: Allocator + Copy>(alloc: A, bytes: &[u8]) -> Result<Vec<u8, A>, WebFault>
    ensures answers { IfOk result (λ text. Answers packed_text bytes.now text.items) }
    ensures fails { IfErr result (FailsAlone bytes.now) }
{
    let file = read(alloc, bytes)?;
    let packed = pack(alloc, &file);
    drop(file);
    let packed = packed?;
    let mut text = Vec::new(alloc);
    let written = write_file(&packed, &mut text);
    drop(packed);
    written?;
    Ok(text)
}
