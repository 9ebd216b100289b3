//! The lines of the listing, each appended to a text.

ghost use Rattle.std.specs.Prelude.{◌≡◌, ◌++◌, string_bytes, OnOk};
ghost use Rattle.tws_moves.specs.Move.{Move as Plain};
ghost use Rattle.tws_file.specs.Record.{record_of};
ghost use Rattle.tws_file.specs.Text.{solution};
ghost use Rattle.tws_tables.specs.Listing.{header_line, solved_words, details_line, record_line, act_line, move_line, count_line};

use crate::hex_byte::HexByte;
use std::alloc::{AllocError, Allocator};
use tws_file::{Key, Record, Ruleset, Solution};
use tws_moves::{Act, Move};

pub(crate) fn push_header<A: Allocator>(
    text: &mut String<A>,
    ruleset: Ruleset,
    word: [u8; 2],
    extra: &[u8],
) -> Result<(), AllocError>
    ensures { OnOk result (string_bytes text.new ≡ string_bytes text.old ++ header_line «ruleset» word extra.now) }
{
    let [first, second] = word;
    let (first, second) = (HexByte(first), HexByte(second));
    write!(text, "ruleset {ruleset} word {first}{second}")?;
    writeln!(text, " extra {}", extra.len())
}

fn push_solved<A: Allocator>(text: &mut String<A>, key: Key, ticks: u32) -> Result<(), AllocError>
    ensures { OnOk result (string_bytes text.new ≡ string_bytes text.old ++ solved_words key ticks) }
{
    write!(text, "level {key} ticks {ticks}")
}

fn push_details<A: Allocator>(
    text: &mut String<A>,
    flags: u8,
    start: u8,
    seed: u32,
    bytes: usize,
) -> Result<(), AllocError>
    ensures { OnOk result (string_bytes text.new ≡ string_bytes text.old ++ details_line flags start seed bytes) }
{
    let (flags, start) = (HexByte(flags), HexByte(start));
    write!(text, " flags {flags} start {start}")?;
    writeln!(text, " seed {seed} bytes {bytes}")
}

fn push_solution<A: Allocator, B: Allocator>(
    text: &mut String<A>,
    s: &Solution<B>,
) -> Result<(), AllocError>
    ensures { OnOk result (string_bytes text.new ≡ string_bytes text.old ++ record_line (solution s.now)) }
{
    push_solved(text, s.key, s.ticks)?;
    push_details(text, s.flags, s.start, s.seed, s.moves.len())
}

pub(crate) fn push_record<A: Allocator, B: Allocator>(
    text: &mut String<A>,
    one: &Record<B>,
) -> Result<(), AllocError>
    ensures { OnOk result (string_bytes text.new ≡ string_bytes text.old ++ record_line (record_of one.now)) }
{
    match one {
        Record::Pad => writeln!(text, "pad"),
        Record::Set { rest } => writeln!(text, "set {}", rest.len()),
        Record::Bare { key } => writeln!(text, "level {key}"),
        Record::Solution(solution) => push_solution(text, solution),
    }
}

pub(crate) fn push_count<A: Allocator>(
    text: &mut String<A>,
    records: usize,
) -> Result<(), AllocError>
    ensures { OnOk result (string_bytes text.new ≡ string_bytes text.old ++ count_line records) }
{
    writeln!(text, "records {records}")
}

fn push_act<A: Allocator>(text: &mut String<A>, act: Act) -> Result<(), AllocError>
    ensures { OnOk result (string_bytes text.new ≡ string_bytes text.old ++ act_line act) }
{
    match act {
        Act::Step(direction) => writeln!(text, " step {direction}"),
        Act::Code(code) => writeln!(text, " code {code}"),
    }
}

pub(crate) fn push_move<A: Allocator>(text: &mut String<A>, one: Move) -> Result<(), AllocError>
    ensures { OnOk result (string_bytes text.new ≡ string_bytes text.old ++ move_line one) }
{
    write!(text, " at {}", one.at)?;
    push_act(text, one.act)
}
