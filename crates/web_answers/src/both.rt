//! A text of two files of one ruleset.

ghost use Rattle.std.specs.Prelude.{◌≡◌, ℕ, List, IfOk, IfErr};
ghost use Rattle.tws_best.specs.Best.{collection_text};
ghost use Rattle.tws_compare.specs.Compare.{better_of, rows_of};
ghost use Rattle.tws_compare.specs.Lines.{comparison_text};
ghost use Rattle.tws_file.specs.Text.{IsText};
ghost use Rattle.web_answers.specs.Answers.{AnswersBest, AnswersBoth, Fails};

use crate::web_fault::WebFault;
use std::alloc::{AllocError, Allocator};
use tws_best::Collection;
use tws_compare::{CompareFault, better as better_of_two, compare, comparison_text};
use tws_file::TwsFile;
use tws_reader::read_file;

// The files with these texts, if they are of one ruleset.
fn read_both<A: Allocator + Copy>(
    alloc: A,
    first: &[u8],
    second: &[u8],
) -> Result<(TwsFile<A>, TwsFile<A>), WebFault>
    ensures first { IfOk result (λ files. IsText first.now files.0) }
    ensures second { IfOk result (λ files. IsText second.now files.1) }
    ensures same { IfOk result (λ files. files.0.ruleset ≡ files.1.ruleset) }
    ensures fails { IfErr result (Fails first.now second.now) }
{
    let mine = match read_file(alloc, first) {
        Ok(file) => file,
        Err(fault) => return Err(WebFault::first(fault)),
    };
    let theirs = match read_file(alloc, second) {
        Ok(file) => file,
        Err(fault) => {
            drop(mine);
            return Err(WebFault::second(fault));
        }
    };
    if mine.ruleset != theirs.ruleset {
        drop(mine);
        drop(theirs);
        return Err(WebFault::Rulesets);
    }
    Ok((mine, theirs))
}

/// The comparison of two files: the first is mine, the second theirs.
///
/// # Errors
///
/// `First` or `Second` with the fault of that file, `Rulesets` if the files are of different rulesets, and `Memory` if an
/// allocation was refused.
pub fn compared<A: Allocator + Copy>(
    alloc: A,
    first: &[u8],
    second: &[u8],
) -> Result<Vec<u8, A>, WebFault>
    ensures answers { IfOk result (λ text. AnswersBoth (λ mine theirs. comparison_text (rows_of mine theirs)) first.now second.now text.items) }
    ensures fails { IfErr result (Fails first.now second.now) }
{
    let (mine, theirs) = read_both(alloc, first, second)?;
    let rows = compare(alloc, &mine, &theirs);
    drop(mine);
    drop(theirs);
    match rows {
        Ok(rows) => {
            let text = comparison_text(alloc, &rows);
            drop(rows);
            Ok(text?.into_bytes())
        }
        Err(CompareFault::Rulesets) => Err(WebFault::Rulesets),
        Err(CompareFault::Memory) => Err(WebFault::Memory),
    }
}

/// The collection of the solutions of the first file that are better than the second one's, or of levels that it has
/// not solved.
///
/// # Errors
///
/// `First` or `Second` with the fault of that file, `Rulesets` if the files are of different rulesets, and `Memory` if an
/// allocation was refused.
pub fn better<A: Allocator + Copy>(
    alloc: A,
    first: &[u8],
    second: &[u8],
) -> Result<Vec<u8, A>, WebFault>
    ensures answers { IfOk result (λ text. AnswersBoth (λ mine theirs. collection_text (better_of mine theirs)) first.now second.now text.items) }
    ensures fails { IfErr result (Fails first.now second.now) }
{
    let (mine, theirs) = read_both(alloc, first, second)?;
    let collection = better_of_two(alloc, mine, &theirs);
    drop(theirs);
    match collection {
        Ok(collection) => {
            let mut text = Vec::new(alloc);
            let written = collection.write_text(&mut text);
            drop(collection);
            written?;
            Ok(text)
        }
        Err(CompareFault::Rulesets) => Err(WebFault::Rulesets),
        Err(CompareFault::Memory) => Err(WebFault::Memory),
    }
}

// The text of the collection of the best solutions of both files.
fn best_of<A: Allocator + Copy>(
    alloc: A,
    mine: &TwsFile<A>,
    theirs: &TwsFile<A>,
) -> Result<Vec<u8, A>, AllocError>
    ensures { (first : List ℕ) → (second : List ℕ) → IsText first mine.now → IsText second theirs.now →
        mine.now.ruleset ≡ theirs.now.ruleset → IfOk result (λ text. AnswersBest first second text.items) }
{
    let mut collection = Collection::new(alloc, mine.ruleset);
    collection.merge(mine)?;
    collection.merge(theirs)?;
    let mut text = Vec::new(alloc);
    match collection.write_text(&mut text) {
        Ok(()) => Ok(text),
        Err(_) => Err(AllocError),
    }
}

/// The collection of the best solutions of both files.
///
/// # Errors
///
/// `First` or `Second` with the fault of that file, `Rulesets` if the files are of different rulesets, and `Memory` if an
/// allocation was refused.
pub fn best<A: Allocator + Copy>(
    alloc: A,
    first: &[u8],
    second: &[u8],
) -> Result<Vec<u8, A>, WebFault>
    ensures answers { IfOk result (λ text. AnswersBest first.now second.now text.items) }
    ensures fails { IfErr result (Fails first.now second.now) }
{
    let (mine, theirs) = read_both(alloc, first, second)?;
    let text = best_of(alloc, &mine, &theirs);
    drop(mine);
    drop(theirs);
    Ok(text?)
}
