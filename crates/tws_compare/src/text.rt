//! The text of a comparison.

ghost use Rattle.std.specs.Prelude.{◌≡◌, ◌++◌, string_bytes, IfOk, OnOk};
ghost use Rattle.std.specs.List.{flat_map};
ghost use Rattle.tws_compare.specs.Lines.{row_line, only_words, better_line, counts_line, comparison_text};

use crate::counts::Counts;
use crate::row::Row;
use std::alloc::{AllocError, Allocator};

// Appends a line for each row.
fn push_rows<A: Allocator>(text: &mut String<A>, rows: &[Row]) -> Result<(), AllocError>
    ensures { OnOk result (string_bytes text.new ≡ string_bytes text.old ++ flat_map row_line rows.now) }
{
    for row in rows {
        writeln!(text, "{row}")?;
    }
    Ok(())
}

fn push_only<A: Allocator>(text: &mut String<A>, counts: Counts) -> Result<(), AllocError>
    ensures { OnOk result (string_bytes text.new ≡ string_bytes text.old ++ only_words counts) }
{
    let Counts {
        levels,
        only_mine,
        only_theirs,
        ..
    } = counts;
    write!(
        text,
        "levels {levels} only mine {only_mine} only theirs {only_theirs}"
    )
}

fn push_better<A: Allocator>(text: &mut String<A>, counts: Counts) -> Result<(), AllocError>
    ensures { OnOk result (string_bytes text.new ≡ string_bytes text.old ++ better_line counts) }
{
    let Counts {
        mine_better,
        theirs_better,
        equal,
        tied,
        ..
    } = counts;
    writeln!(
        text,
        " mine better {mine_better} theirs better {theirs_better} equal {equal} tie {tied}"
    )
}

// Appends the line of the counts.
fn push_counts<A: Allocator>(text: &mut String<A>, counts: Counts) -> Result<(), AllocError>
    ensures { OnOk result (string_bytes text.new ≡ string_bytes text.old ++ counts_line counts) }
{
    push_only(text, counts)?;
    push_better(text, counts)
}

/// The line of the counts.
///
/// # Errors
///
/// Out of memory.
pub fn counts_text<A: Allocator>(alloc: A, counts: Counts) -> Result<String<A>, AllocError>
    ensures { IfOk result (λ text. string_bytes text ≡ counts_line counts) }
{
    let mut text = String::new(alloc);
    push_counts(&mut text, counts)?;
    Ok(text)
}

/// The text of a comparison: a line for each row, in order, and a line with the counts.
///
/// # Errors
///
/// Out of memory.
pub fn comparison_text<A: Allocator>(alloc: A, rows: &[Row]) -> Result<String<A>, AllocError>
    ensures { IfOk result (λ text. string_bytes text ≡ comparison_text rows.now) }
{
    let mut text = String::new(alloc);
    push_rows(&mut text, rows)?;
    push_counts(&mut text, Counts::of(rows))?;
    Ok(text)
}
