//! The rows of a table by a list of levels, appended to a text.

ghost use Rattle.std.specs.Prelude.{◌≡◌, ◌++◌, string_bytes, length, map, OnOk};
ghost use Rattle.std.specs.List.{flat_map, list_any};
ghost use Rattle.tws_moves.specs.Spelling.{moves_in};
ghost use Rattle.tws_file.specs.Record.{record_of, records_of};
ghost use Rattle.tws_file.specs.Text.{solution};
ghost use Rattle.tws_pages.specs.Escaping.{escaped};
ghost use Rattle.tws_pages.specs.SetName.{shown_byte};
ghost use Rattle.tws_pages.specs.TimeLeft.{time_left};
ghost use Rattle.tws_pages.specs.Page.{page_cell};
ghost use Rattle.tws_pages.specs.LevelTable.{key_cells, level_rows, name_cell, other_row, other_rows, own_rows, row_start, same_key, solved_row, solves, spent_cells, unsolved_row};
ghost use Rattle.tws_pages.specs.Steps.{no_cells, unsolved_start, unsolved_end};

use crate::escaped_char::EscapedChar;
use crate::level::Level;
use crate::level_set::shown_byte;
use crate::password::PasswordCell;
use crate::time_left::TimeLeft;
use std::alloc::{AllocError, Allocator};
use tws_file::{Key, Record, Ruleset, Solution};
use tws_tables::{Seconds, move_count};

pub(crate) fn same_key(a: Key, b: Key) -> bool
    ensures { result ≡ same_key a b }
{
    a.number == b.number && a.password.as_slice() == b.password.as_slice()
}

fn push_row_start<A: Allocator>(text: &mut String<A>, key: Key) -> Result<(), AllocError>
    ensures { OnOk result (string_bytes text.new ≡ string_bytes text.old ++ row_start key) }
{
    let password = PasswordCell(key.password);
    write!(text, "<tr><td>{}</td><td>{password}</td>", key.number)
}

// Appends a name as text in HTML.
fn push_shown<A: Allocator>(text: &mut String<A>, name: &[u8]) -> Result<(), AllocError>
    ensures { OnOk result (string_bytes text.new ≡ string_bytes text.old ++ escaped (map shown_byte name.now)) }
{
    for &byte in name {
        write!(text, "{}", EscapedChar(char::from(shown_byte(byte))))?;
    }
    Ok(())
}

pub(crate) fn push_name_cell<A: Allocator>(
    text: &mut String<A>,
    name: &[u8],
) -> Result<(), AllocError>
    ensures { OnOk result (string_bytes text.new ≡ string_bytes text.old ++ name_cell name.now) }
{
    text.push_str("<td>")?;
    push_shown(text, name)?;
    text.push_str("</td>")
}

pub(crate) fn push_left_cell<A: Allocator>(
    text: &mut String<A>,
    left: TimeLeft,
) -> Result<(), AllocError>
    ensures { OnOk result (string_bytes text.new ≡ string_bytes text.old ++ page_cell (time_left left.«ruleset» left.limit left.ticks)) }
{
    write!(text, "<td>{left}</td>")
}

fn push_spent_cells<A: Allocator>(
    text: &mut String<A>,
    ticks: u32,
    moves: u64,
) -> Result<(), AllocError>
    ensures { OnOk result (string_bytes text.new ≡ string_bytes text.old ++ spent_cells ticks moves) }
{
    let seconds = Seconds(u128::from(ticks));
    writeln!(text, "<td>{seconds}</td><td>{moves}</td></tr>")
}

fn push_no_cells<A: Allocator>(text: &mut String<A>) -> Result<(), AllocError>
    ensures { OnOk result (string_bytes text.new ≡ string_bytes text.old ++ no_cells) }
{
    text.push_str("<td></td><td></td>")
}

fn push_solved_row<A: Allocator>(
    text: &mut String<A>,
    ruleset: Ruleset,
    level: &Level,
    key: Key,
    ticks: u32,
    moves: u64,
) -> Result<(), AllocError>
    ensures { OnOk result (string_bytes text.new ≡ string_bytes text.old ++ solved_row «ruleset» level.now key ticks moves) }
{
    let limit = level.limit;
    push_row_start(text, key)?;
    push_name_cell(text, level.name.as_slice())?;
    push_left_cell(
        text,
        TimeLeft {
            ruleset,
            limit,
            ticks,
        },
    )?;
    push_spent_cells(text, ticks, moves)
}

fn push_unsolved_start<A: Allocator>(text: &mut String<A>) -> Result<(), AllocError>
    ensures { OnOk result (string_bytes text.new ≡ string_bytes text.old ++ unsolved_start) }
{
    text.push_str("<tr class=unsolved>")
}

pub(crate) fn push_key_cells<A: Allocator>(text: &mut String<A>, key: Key) -> Result<(), AllocError>
    ensures { OnOk result (string_bytes text.new ≡ string_bytes text.old ++ key_cells key) }
{
    let password = PasswordCell(key.password);
    write!(text, "<td>{}</td><td>{password}</td>", key.number)
}

fn push_unsolved_end<A: Allocator>(text: &mut String<A>) -> Result<(), AllocError>
    ensures { OnOk result (string_bytes text.new ≡ string_bytes text.old ++ unsolved_end) }
{
    text.push_str("<td></td><td></td><td></td></tr>\n")
}

fn push_unsolved_row<A: Allocator>(text: &mut String<A>, level: &Level) -> Result<(), AllocError>
    ensures { OnOk result (string_bytes text.new ≡ string_bytes text.old ++ unsolved_row level.now) }
{
    push_unsolved_start(text)?;
    push_key_cells(text, level.key)?;
    push_name_cell(text, level.name.as_slice())?;
    push_unsolved_end(text)
}

fn push_other_row<A: Allocator>(
    text: &mut String<A>,
    key: Key,
    ticks: u32,
    moves: u64,
) -> Result<(), AllocError>
    ensures { OnOk result (string_bytes text.new ≡ string_bytes text.old ++ other_row key ticks moves) }
{
    push_row_start(text, key)?;
    push_no_cells(text)?;
    push_spent_cells(text, ticks, moves)
}

// Appends the row of a solution, if it is one of the level.
fn push_own_solution<A: Allocator, B: Allocator>(
    text: &mut String<A>,
    ruleset: Ruleset,
    level: &Level,
    s: &Solution<B>,
) -> Result<(), AllocError>
    ensures { OnOk result (string_bytes text.new ≡ string_bytes text.old ++ own_rows «ruleset» level.now (solution s.now)) }
{
    if same_key(s.key, level.key) {
        push_solved_row(text, ruleset, level, s.key, s.ticks, move_count(s))
    } else {
        Ok(())
    }
}

fn push_own_record<A: Allocator, B: Allocator>(
    text: &mut String<A>,
    ruleset: Ruleset,
    level: &Level,
    one: &Record<B>,
) -> Result<(), AllocError>
    ensures { OnOk result (string_bytes text.new ≡ string_bytes text.old ++ own_rows «ruleset» level.now (record_of one.now)) }
{
    match one {
        Record::Solution(solution) => push_own_solution(text, ruleset, level, solution),
        Record::Pad | Record::Set { .. } | Record::Bare { .. } => Ok(()),
    }
}

fn push_own_rows<A: Allocator, B: Allocator>(
    text: &mut String<A>,
    ruleset: Ruleset,
    level: &Level,
    records: &[Record<B>],
) -> Result<(), AllocError>
    ensures { OnOk result (string_bytes text.new ≡ string_bytes text.old ++ flat_map (own_rows «ruleset» level.now) (records_of records.now)) }
{
    for record in records {
        push_own_record(text, ruleset, level, record)?;
    }
    Ok(())
}

fn solves<B: Allocator>(level: &Level, one: &Record<B>) -> bool
    ensures { result ≡ solves level.now (record_of one.now) }
{
    match one {
        Record::Solution(solution) => same_key(solution.key, level.key),
        Record::Pad | Record::Set { .. } | Record::Bare { .. } => false,
    }
}

fn one_solves<B: Allocator>(level: &Level, records: &[Record<B>]) -> bool
    ensures { result ≡ list_any (λ one. solves level.now (record_of one)) records.now }
{
    records.iter().any(|one| solves(level, one))
}

/// Whether one of the records is a solution of the level.
pub(crate) fn is_solved<B: Allocator>(level: &Level, records: &[Record<B>]) -> bool
    ensures { result ≡ list_any (solves level.now) (records_of records.now) }
{
    one_solves(level, records)
}

/// Appends the rows of a level: those of its solutions among the records, or one that says that it has none.
#[tactic(auto, unfolding(crate::specs::LevelTable::level_rows))]
pub(crate) fn push_level_rows<A: Allocator, B: Allocator>(
    text: &mut String<A>,
    ruleset: Ruleset,
    records: &[Record<B>],
    level: &Level,
) -> Result<(), AllocError>
    ensures { OnOk result (string_bytes text.new ≡ string_bytes text.old ++ level_rows «ruleset» (records_of records.now) level.now) }
{
    if is_solved(level, records) {
        push_own_rows(text, ruleset, level, records)
    } else {
        push_unsolved_row(text, level)
    }
}

// Whether a key is that of one of the levels.
fn is_listed(levels: &[Level], key: Key) -> bool
    ensures { result ≡ list_any (λ level. same_key key level.key) levels.now }
{
    levels.iter().any(|level| same_key(key, level.key))
}

fn push_other_solution<A: Allocator, B: Allocator>(
    text: &mut String<A>,
    levels: &[Level],
    s: &Solution<B>,
) -> Result<(), AllocError>
    ensures { OnOk result (string_bytes text.new ≡ string_bytes text.old ++ other_rows levels.now (solution s.now)) }
{
    if is_listed(levels, s.key) {
        Ok(())
    } else {
        push_other_row(text, s.key, s.ticks, move_count(s))
    }
}

/// Appends the row of a record, if it is a solution of none of the levels.
pub(crate) fn push_other_record<A: Allocator, B: Allocator>(
    text: &mut String<A>,
    levels: &[Level],
    one: &Record<B>,
) -> Result<(), AllocError>
    ensures { OnOk result (string_bytes text.new ≡ string_bytes text.old ++ other_rows levels.now (record_of one.now)) }
{
    match one {
        Record::Solution(solution) => push_other_solution(text, levels, solution),
        Record::Pad | Record::Set { .. } | Record::Bare { .. } => Ok(()),
    }
}
