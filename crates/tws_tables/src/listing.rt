//! The listing of a file.

ghost use Rattle.std.specs.Prelude.{◌++◌, true, length, string_bytes, OnOk, OnErr};
ghost use Rattle.std.specs.List.{flat_map};
ghost use Rattle.std.specs.Io.KnownBytes.{Appends};
ghost use Rattle.tws_file.specs.Record.{record_of, records_of};
ghost use Rattle.tws_file.specs.Text.{solution};
ghost use Rattle.tws_tables.specs.Listing.{header_line, move_line, move_lines, record_lines, count_line, listing_of};
ghost use Rattle.byte_output.specs.Output.{Sends, AppendsPrefix};
ghost use Rattle.tws_tables.specs.Steps.{SendsSome};

use crate::lines::{push_count, push_header, push_move, push_record};
use crate::sending::send_if_large;
use byte_output::{OutFault, put};
use std::alloc::Allocator;
use std::io::Write;
use tws_file::{Record, Ruleset, Solution, TwsFile};
use tws_moves::{Move, MovesFault, read_moves};

// Gathers the lines of moves, and writes the gathered text out as it grows large.
fn show_moves<A: Allocator, W: Write>(
    text: &mut String<A>,
    moves: &[Move],
    out: &mut W,
) -> Result<(), OutFault>
    ensures ok { OnOk result (Sends (W.contents out.old) (W.contents out.new)
        (string_bytes text.old ++ flat_map move_line moves.now) (string_bytes text.new)) }
    ensures err { OnErr result (SendsSome (W.contents out.old) (W.contents out.new)
        (string_bytes text.old ++ flat_map move_line moves.now)) }
{
    for one in moves {
        push_move(text, *one)?;
        send_if_large(text, out)?;
    }
    Ok(())
}

// Gathers the lines of a solution's moves, and writes the gathered text out as it grows large.
fn show_solved<A: Allocator + Copy, B: Allocator, W: Write>(
    alloc: A,
    text: &mut String<A>,
    s: &Solution<B>,
    out: &mut W,
) -> Result<(), OutFault>
    ensures ok { OnOk result (Sends (W.contents out.old) (W.contents out.new)
        (string_bytes text.old ++ move_lines true (solution s.now)) (string_bytes text.new)) }
    ensures err { OnErr result (SendsSome (W.contents out.old) (W.contents out.new)
        (string_bytes text.old ++ move_lines true (solution s.now))) }
{
    match read_moves(alloc, s.moves.as_slice()) {
        Ok(moves) => show_moves(text, &moves, out),
        Err(MovesFault::Memory) => Err(OutFault::Memory),
        // A solution's moves are never cut.
        Err(MovesFault::Cut { .. }) => unreachable!(),
    }
}

// Gathers the lines of a record, and writes the gathered text out as it grows large.
fn show_record<A: Allocator + Copy, B: Allocator, W: Write>(
    alloc: A,
    text: &mut String<A>,
    one: &Record<B>,
    with_moves: bool,
    out: &mut W,
) -> Result<(), OutFault>
    ensures ok { OnOk result (Sends (W.contents out.old) (W.contents out.new)
        (string_bytes text.old ++ record_lines with_moves (record_of one.now)) (string_bytes text.new)) }
    ensures err { OnErr result (SendsSome (W.contents out.old) (W.contents out.new)
        (string_bytes text.old ++ record_lines with_moves (record_of one.now))) }
{
    push_record(text, one)?;
    send_if_large(text, out)?;
    match one {
        Record::Solution(solution) if with_moves => show_solved(alloc, text, solution, out),
        _ => Ok(()),
    }
}

// Gathers the lines of the records, and writes the gathered text out as it grows large.
fn show_records<A: Allocator + Copy, B: Allocator, W: Write>(
    alloc: A,
    text: &mut String<A>,
    records: &[Record<B>],
    with_moves: bool,
    out: &mut W,
) -> Result<(), OutFault>
    ensures ok { OnOk result (Sends (W.contents out.old) (W.contents out.new)
        (string_bytes text.old ++ flat_map (record_lines with_moves) (records_of records.now)) (string_bytes text.new)) }
    ensures err { OnErr result (SendsSome (W.contents out.old) (W.contents out.new)
        (string_bytes text.old ++ flat_map (record_lines with_moves) (records_of records.now))) }
{
    for record in records {
        show_record(alloc, text, record, with_moves, out)?;
    }
    Ok(())
}

// Writes the listing of a file with these parts.
fn show_parts<A: Allocator + Copy, B: Allocator, W: Write>(
    alloc: A,
    ruleset: Ruleset,
    word: [u8; 2],
    extra: &[u8],
    records: &[Record<B>],
    with_moves: bool,
    out: &mut W,
) -> Result<(), OutFault>
    ensures ok { OnOk result (Appends (W.contents out.old) (W.contents out.new)
        (header_line «ruleset» word extra.now ++ flat_map (record_lines with_moves) (records_of records.now) ++ count_line (length records.now))) }
    ensures err { OnErr result (AppendsPrefix (W.contents out.old) (W.contents out.new)
        (header_line «ruleset» word extra.now ++ flat_map (record_lines with_moves) (records_of records.now) ++ count_line (length records.now))) }
{
    let mut text = String::new(alloc);
    push_header(&mut text, ruleset, word, extra)?;
    show_records(alloc, &mut text, records, with_moves, out)?;
    push_count(&mut text, records.len())?;
    put(out, text.as_bytes())
}

/// Writes the listing of a file: a line for the header, one for each record, and one for the number of records. With
/// `moves`, a solution's line is followed by one for each of its moves.
///
/// The listing is written in large pieces.
///
/// # Errors
///
/// `Io` if the writer fails, `Memory` if an allocation was refused. A proper prefix of the listing was written.
pub fn show<A: Allocator + Copy, B: Allocator, W: Write>(
    alloc: A,
    file: &TwsFile<B>,
    moves: bool,
    out: &mut W,
) -> Result<(), OutFault>
    ensures ok { OnOk result (Appends (W.contents out.old) (W.contents out.new) (listing_of moves file.now)) }
    ensures err { OnErr result (AppendsPrefix (W.contents out.old) (W.contents out.new) (listing_of moves file.now)) }
{
    let records = file.records.as_slice();
    show_parts(
        alloc,
        file.ruleset,
        file.word,
        file.extra.as_slice(),
        records,
        moves,
        out,
    )
}
