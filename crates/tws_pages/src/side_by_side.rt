//! A table of levels with the best times of both rulesets side by side, appended to a text.

ghost use Rattle.std.specs.Prelude.{◌≡◌, ◌++◌, ◌&&◌, string_bytes, OnOk};
ghost use Rattle.std.specs.List.{flat_map, fold};
ghost use Rattle.tws_file.specs.Record.{record_of, records_of};
ghost use Rattle.tws_file.specs.Text.{solution};
ghost use Rattle.tws_pages.specs.SideBySide.{best_time, better, has_rules, level_sides, same_rules, side_by_side, side_end, side_start, sides_head, sides_row, sides_table, time_cell, with_file, with_record};

use crate::level::Level;
use crate::level_rows::{push_key_cells, push_left_cell, push_name_cell, same_key};
use crate::markup::SIDES_HEAD;
use crate::page_head::push_table_end;
use crate::time_left::TimeLeft;
use std::alloc::{AllocError, Allocator};
use tws_file::{Record, Ruleset, Solution, TwsFile};

fn same_rules(a: Ruleset, b: Ruleset) -> bool
    ensures { result ≡ same_rules a b }
{
    match (a, b) {
        (Ruleset::Lynx, Ruleset::Lynx) => true,
        (Ruleset::Lynx, Ruleset::Ms) => false,
        (Ruleset::Ms, Ruleset::Lynx) => false,
        (Ruleset::Ms, Ruleset::Ms) => true,
    }
}

fn better(best: Option<u32>, ticks: u32) -> Option<u32>
    ensures { result ≡ better best ticks }
{
    match best {
        Some(best) => Some(best.min(ticks)),
        None => Some(ticks),
    }
}

// With the time of a solution, if it is one of the level.
fn with_solution<B: Allocator>(level: &Level, best: Option<u32>, s: &Solution<B>) -> Option<u32>
    ensures { result ≡ with_record level.now best (solution s.now) }
{
    if same_key(s.key, level.key) {
        better(best, s.ticks)
    } else {
        best
    }
}

fn with_record<B: Allocator>(level: &Level, best: Option<u32>, one: &Record<B>) -> Option<u32>
    ensures { result ≡ with_record level.now best (record_of one.now) }
{
    match one {
        Record::Solution(solution) => with_solution(level, best, solution),
        Record::Pad | Record::Set { .. } | Record::Bare { .. } => best,
    }
}

fn with_each<B: Allocator>(level: &Level, so_far: Option<u32>, records: &[Record<B>]) -> Option<u32>
    ensures { result ≡ fold (λ best one. with_record level.now best (record_of one)) so_far records.now }
{
    let mut best = so_far;
    for record in records {
        best = with_record(level, best, record);
    }
    best
}

fn with_records<B: Allocator>(
    level: &Level,
    so_far: Option<u32>,
    records: &[Record<B>],
) -> Option<u32>
    ensures { result ≡ fold (with_record level.now) so_far (records_of records.now) }
{
    with_each(level, so_far, records)
}

// With the times in a file, if it is of the ruleset.
fn with_file<B: Allocator>(
    ruleset: Ruleset,
    level: &Level,
    best: Option<u32>,
    file: &TwsFile<B>,
) -> Option<u32>
    ensures { result ≡ with_file «ruleset» level.now best file.now }
{
    let records = file.records.as_slice();
    if same_rules(file.ruleset, ruleset) {
        with_records(level, best, records)
    } else {
        best
    }
}

fn best_time<B: Allocator>(ruleset: Ruleset, level: &Level, files: &[TwsFile<B>]) -> Option<u32>
    ensures { result ≡ best_time «ruleset» level.now files.now }
{
    let mut best = None;
    for file in files {
        best = with_file(ruleset, level, best, file);
    }
    best
}

fn push_side_start<A: Allocator>(
    text: &mut String<A>,
    lynx: Option<u32>,
    ms: Option<u32>,
) -> Result<(), AllocError>
    ensures { OnOk result (string_bytes text.new ≡ string_bytes text.old ++ side_start lynx ms) }
{
    match (lynx, ms) {
        (None, None) => text.push_str("<tr class=unsolved>"),
        (None, Some(_)) => text.push_str("<tr>"),
        (Some(_), None) => text.push_str("<tr>"),
        (Some(_), Some(_)) => text.push_str("<tr>"),
    }
}

fn push_time_cell<A: Allocator>(
    text: &mut String<A>,
    ruleset: Ruleset,
    limit: u32,
    best: Option<u32>,
) -> Result<(), AllocError>
    ensures { OnOk result (string_bytes text.new ≡ string_bytes text.old ++ time_cell «ruleset» limit best) }
{
    match best {
        Some(ticks) => push_left_cell(
            text,
            TimeLeft {
                ruleset,
                limit,
                ticks,
            },
        ),
        None => text.push_str("<td></td>"),
    }
}

fn push_side_end<A: Allocator>(text: &mut String<A>) -> Result<(), AllocError>
    ensures { OnOk result (string_bytes text.new ≡ string_bytes text.old ++ side_end) }
{
    text.push_str("</tr>\n")
}

#[tactic(auto, unfolding(crate::specs::SideBySide::sides_row))]
fn push_sides_row<A: Allocator>(
    text: &mut String<A>,
    level: &Level,
    lynx: Option<u32>,
    ms: Option<u32>,
) -> Result<(), AllocError>
    ensures { OnOk result (string_bytes text.new ≡ string_bytes text.old ++ sides_row level.now lynx ms) }
{
    let limit = level.limit;
    push_side_start(text, lynx, ms)?;
    push_key_cells(text, level.key)?;
    push_name_cell(text, level.name.as_slice())?;
    push_time_cell(text, Ruleset::Lynx, limit, lynx)?;
    push_time_cell(text, Ruleset::Ms, limit, ms)?;
    push_side_end(text)
}

#[tactic(auto, unfolding(crate::specs::SideBySide::level_sides))]
fn push_level_sides<A: Allocator, B: Allocator>(
    text: &mut String<A>,
    files: &[TwsFile<B>],
    level: &Level,
) -> Result<(), AllocError>
    ensures { OnOk result (string_bytes text.new ≡ string_bytes text.old ++ level_sides files.now level.now) }
{
    let lynx = best_time(Ruleset::Lynx, level, files);
    let ms = best_time(Ruleset::Ms, level, files);
    push_sides_row(text, level, lynx, ms)
}

fn push_rows<A: Allocator, B: Allocator>(
    text: &mut String<A>,
    files: &[TwsFile<B>],
    levels: &[Level],
) -> Result<(), AllocError>
    ensures { OnOk result (string_bytes text.new ≡ string_bytes text.old ++ flat_map (level_sides files.now) levels.now) }
{
    for level in levels {
        push_level_sides(text, files, level)?;
    }
    Ok(())
}

#[tactic(auto, unfolding(crate::specs::SideBySide::sides_head))]
fn push_sides_head<A: Allocator>(text: &mut String<A>) -> Result<(), AllocError>
    ensures { OnOk result (string_bytes text.new ≡ string_bytes text.old ++ sides_head) }
{
    text.push_str(SIDES_HEAD)
}

#[tactic(auto, unfolding(crate::specs::SideBySide::sides_table))]
fn push_sides_table<A: Allocator, B: Allocator>(
    text: &mut String<A>,
    levels: &[Level],
    files: &[TwsFile<B>],
) -> Result<(), AllocError>
    ensures { OnOk result (string_bytes text.new ≡ string_bytes text.old ++ sides_table levels.now files.now) }
{
    push_sides_head(text)?;
    push_rows(text, files, levels)?;
    push_table_end(text)
}

fn is_of<B: Allocator>(ruleset: Ruleset, file: &TwsFile<B>) -> bool
    ensures { result ≡ same_rules file.now.«ruleset» «ruleset» }
{
    same_rules(file.ruleset, ruleset)
}

fn has_rules<B: Allocator>(ruleset: Ruleset, files: &[TwsFile<B>]) -> bool
    ensures { result ≡ has_rules «ruleset» files.now }
{
    files.iter().any(|file| is_of(ruleset, file))
}

/// Appends the table of the levels with both rulesets side by side, where there are files of both.
#[tactic(auto, unfolding(crate::specs::SideBySide::side_by_side))]
pub(crate) fn push_side_by_side<A: Allocator, B: Allocator>(
    text: &mut String<A>,
    levels: &[Level],
    files: &[TwsFile<B>],
) -> Result<(), AllocError>
    ensures { OnOk result (string_bytes text.new ≡ string_bytes text.old ++ side_by_side levels.now files.now) }
{
    if has_rules(Ruleset::Lynx, files) && has_rules(Ruleset::Ms, files) {
        push_sides_table(text, levels, files)
    } else {
        Ok(())
    }
}
