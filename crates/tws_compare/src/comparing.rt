//! Comparing two files by the best solution that each has of a level.

ghost use Rattle.std.specs.Prelude.{◌≡◌, map, filter, IfOk, IfErr, OnOk};
ghost use Rattle.tws_best.specs.Best.{IsCollected};
ghost use Rattle.tws_compare.specs.Compare.{CompareFails, row_at, rows_of, better_of, improved_file, improves, sides_of};

use crate::compare_fault::CompareFault;
use crate::keys::keys_of_either;
use crate::row::Row;
use crate::sides::Sides;
use std::alloc::{AllocError, Allocator};
use tws_best::Collection;
use tws_file::{Key, Records, TwsFile};

// A row for each of the keys.
fn rows_at<A: Allocator, B: Allocator>(
    alloc: A,
    sides: &Sides<B>,
    keys: &[Key],
) -> Result<Vec<Row, A>, AllocError>
    ensures { IfOk result (λ rows. rows.items ≡ map (row_at sides.now) keys.now) }
{
    let mut rows = Vec::new(alloc);
    for key in keys {
        let standing = sides.standing(*key);
        rows.push(Row {
            key: *key,
            standing,
        })?;
    }
    Ok(rows)
}

// The rows of the comparison of two files, whatever their rulesets.
fn rows_between<A: Allocator + Copy, B: Allocator, C: Allocator>(
    alloc: A,
    mine: &TwsFile<B>,
    theirs: &TwsFile<C>,
) -> Result<Vec<Row, A>, AllocError>
    ensures { IfOk result (λ rows. rows.items ≡ rows_of mine.now theirs.now) }
{
    let sides = Sides::load(alloc, mine, theirs)?;
    let keys = keys_of_either(alloc, mine.records.as_slice(), theirs.records.as_slice())?;
    rows_at(alloc, &sides, &keys)
}

/// Compares two files level by level: a row for each level that either has solved, in the order of the collections.
///
/// # Errors
///
/// `Rulesets` if the files are of different rulesets, and `Memory` if an allocation was refused.
pub fn compare<A: Allocator + Copy, B: Allocator, C: Allocator>(
    alloc: A,
    mine: &TwsFile<B>,
    theirs: &TwsFile<C>,
) -> Result<Vec<Row, A>, CompareFault>
    ensures rows { IfOk result (λ rows. rows.items ≡ rows_of mine.now theirs.now) }
    ensures same { OnOk result (mine.now.ruleset ≡ theirs.now.ruleset) }
    ensures fails { IfErr result (CompareFails mine.now theirs.now) }
{
    if mine.ruleset != theirs.ruleset {
        return Err(CompareFault::Rulesets);
    }
    Ok(rows_between(alloc, mine, theirs)?)
}

// The records that are solutions of levels where mine is better or theirs has none, in order.
fn improvements<A: Allocator, B: Allocator>(sides: &Sides<A>, records: Records<B>) -> Records<B>
    ensures { result ≡ filter (improves sides.now) records }
{
    let mut records = records.into_vec();
    records.retain(|one| sides.improves(one));
    Records::of(records)
}

// My file with these records alone.
fn only_improvements<A: Allocator, B: Allocator>(sides: &Sides<A>, mine: TwsFile<B>) -> TwsFile<B>
    ensures { result ≡ improved_file sides.now mine }
{
    TwsFile {
        ruleset: mine.ruleset,
        word: mine.word,
        extra: mine.extra,
        records: improvements(sides, mine.records),
    }
}

// The best of my solutions that are better than theirs or new, whatever the rulesets.
fn best_improvements<A: Allocator + Copy, B: Allocator, C: Allocator>(
    alloc: A,
    mine: TwsFile<B>,
    theirs: &TwsFile<C>,
) -> Result<Collection<A>, AllocError>
    ensures better { IfOk result (λ better. better ≡ better_of mine theirs.now) }
    ensures fits { IfOk result IsCollected }
{
    let sides = Sides::load(alloc, &mine, theirs)?;
    Collection::load(alloc, &only_improvements(&sides, mine))
}

/// Returns the collection of the best of my solutions that are better than theirs, or of levels that they have not
/// solved.
///
/// # Errors
///
/// `Rulesets` if the files are of different rulesets, and `Memory` if an allocation was refused.
pub fn better<A: Allocator + Copy, B: Allocator, C: Allocator>(
    alloc: A,
    mine: TwsFile<B>,
    theirs: &TwsFile<C>,
) -> Result<Collection<A>, CompareFault>
    ensures better { IfOk result (λ better. better ≡ better_of mine theirs.now) }
    ensures fits { IfOk result IsCollected }
    ensures same { OnOk result (mine.ruleset ≡ theirs.now.ruleset) }
    ensures fails { IfErr result (CompareFails mine theirs.now) }
{
    if mine.ruleset != theirs.ruleset {
        return Err(CompareFault::Rulesets);
    }
    Ok(best_improvements(alloc, mine, theirs)?)
}
