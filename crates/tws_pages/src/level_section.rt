//! The section of a file by a list of levels, appended to a text.

ghost use Rattle.std.specs.Prelude.{◌≡◌, ◌++◌, string_bytes, option_copied, length, OnOk};
ghost use Rattle.std.specs.List.{flat_map};
ghost use Rattle.tws_file.specs.Record.{records_of};
ghost use Rattle.tws_pages.specs.LevelTable.{level_rows, level_section, level_section_head, level_section_with, level_table_head, other_rows, solved_count, solved_line};

use crate::level::Level;
use crate::level_rows::{is_solved, push_level_rows, push_other_record};
use crate::level_set::first_name;
use crate::markup::LEVEL_TABLE_HEAD;
use crate::page_head::{push_counts, push_heading, push_table_end};
use crate::totals::Totals;
use std::alloc::{AllocError, Allocator};
use tws_file::{Record, Ruleset, TwsFile};

#[tactic(auto, unfolding(crate::specs::LevelTable::level_table_head))]
fn push_level_table_head<A: Allocator>(text: &mut String<A>) -> Result<(), AllocError>
    ensures { OnOk result (string_bytes text.new ≡ string_bytes text.old ++ level_table_head) }
{
    text.push_str(LEVEL_TABLE_HEAD)
}

// How many of the levels are solved.
fn solved_count<B: Allocator>(levels: &[Level], records: &[Record<B>]) -> usize
    ensures { result ≡ solved_count levels.now (records_of records.now) }
{
    levels
        .iter()
        .filter(|level| is_solved(level, records))
        .count()
}

fn push_solved_line<A: Allocator>(
    text: &mut String<A>,
    solved: usize,
    all: usize,
) -> Result<(), AllocError>
    ensures { OnOk result (string_bytes text.new ≡ string_bytes text.old ++ solved_line solved all) }
{
    writeln!(text, "<p>Levels: {all}, solved: {solved}</p>")
}

fn push_levels<A: Allocator, B: Allocator>(
    text: &mut String<A>,
    ruleset: Ruleset,
    records: &[Record<B>],
    levels: &[Level],
) -> Result<(), AllocError>
    ensures { OnOk result (string_bytes text.new ≡ string_bytes text.old ++ flat_map (level_rows «ruleset» (records_of records.now)) levels.now) }
{
    for level in levels {
        push_level_rows(text, ruleset, records, level)?;
    }
    Ok(())
}

fn push_others<A: Allocator, B: Allocator>(
    text: &mut String<A>,
    levels: &[Level],
    records: &[Record<B>],
) -> Result<(), AllocError>
    ensures { OnOk result (string_bytes text.new ≡ string_bytes text.old ++ flat_map (other_rows levels.now) (records_of records.now)) }
{
    for record in records {
        push_other_record(text, levels, record)?;
    }
    Ok(())
}

#[tactic(auto, unfolding(crate::specs::LevelTable::level_section_head))]
fn push_level_section_head<A: Allocator, B: Allocator>(
    text: &mut String<A>,
    levels: &[Level],
    ruleset: Ruleset,
    records: &[Record<B>],
) -> Result<(), AllocError>
    ensures { OnOk result (string_bytes text.new ≡ string_bytes text.old ++ level_section_head levels.now «ruleset» (records_of records.now)) }
{
    push_heading(text, ruleset, first_name(records))?;
    push_solved_line(text, solved_count(levels, records), levels.len())?;
    push_counts(text, Totals::of(records))?;
    push_level_table_head(text)
}

// Appends the section of a file with these parts.
#[tactic(auto, unfolding(crate::specs::LevelTable::level_section_with))]
fn push_parts<A: Allocator, B: Allocator>(
    text: &mut String<A>,
    levels: &[Level],
    ruleset: Ruleset,
    records: &[Record<B>],
) -> Result<(), AllocError>
    ensures { OnOk result (string_bytes text.new ≡ string_bytes text.old ++ level_section_with levels.now «ruleset» (records_of records.now)) }
{
    push_level_section_head(text, levels, ruleset, records)?;
    push_levels(text, ruleset, records, levels)?;
    push_others(text, levels, records)?;
    push_table_end(text)
}

/// Appends the section of a file by these levels.
pub(crate) fn push_level_section<A: Allocator, B: Allocator>(
    text: &mut String<A>,
    levels: &[Level],
    file: &TwsFile<B>,
) -> Result<(), AllocError>
    ensures { OnOk result (string_bytes text.new ≡ string_bytes text.old ++ level_section levels.now file.now) }
{
    let records = file.records.as_slice();
    push_parts(text, levels, file.ruleset, records)
}
