//! A line of comma-separated values, appended to a text.

ghost use Rattle.std.specs.Prelude.{◌≡◌, ◌++◌, string_bytes, OnOk};
ghost use Rattle.tws_tables.specs.Csv.{csv_names, csv_fields, csv_line};
ghost use Rattle.tws_tables.specs.Steps.{csv_level, csv_lengths, csv_details};

use crate::counting::move_count;
use crate::hex_byte::HexByte;
use crate::row_format::RowFormat;
use crate::seconds::Seconds;
use std::alloc::{AllocError, Allocator};
use tws_file::{Key, Password, Ruleset, Solution};

/// Appends the line with the names of the columns.
pub(crate) fn push_names<A: Allocator>(text: &mut String<A>) -> Result<(), AllocError>
    ensures { OnOk result (string_bytes text.new ≡ string_bytes text.old ++ csv_line csv_names) }
{
    text.push_str("level,password,ticks,seconds,moves,bytes,flags,start,seed,ruleset\n")
}

fn push_level<A: Allocator>(text: &mut String<A>, key: Key, ticks: u32) -> Result<(), AllocError>
    ensures { OnOk result (string_bytes text.new ≡ string_bytes text.old ++ csv_level key ticks) }
{
    let password = Password(key.password);
    write!(text, "{},{password},{ticks},", key.number)
}

fn push_lengths<A: Allocator>(
    text: &mut String<A>,
    ticks: u32,
    moves: u64,
    bytes: usize,
) -> Result<(), AllocError>
    ensures { OnOk result (string_bytes text.new ≡ string_bytes text.old ++ csv_lengths ticks moves bytes) }
{
    let seconds = Seconds(u128::from(ticks));
    write!(text, "{seconds},{moves},{bytes},")
}

fn push_details<A: Allocator>(
    text: &mut String<A>,
    flags: u8,
    start: u8,
    seed: u32,
    ruleset: Ruleset,
) -> Result<(), AllocError>
    ensures { OnOk result (string_bytes text.new ≡ string_bytes text.old ++ csv_details flags start seed «ruleset») }
{
    let (flags, start) = (HexByte(flags), HexByte(start));
    writeln!(text, "{flags},{start},{seed},{ruleset}")
}

// Appends the line of a solution of a file of this ruleset.
fn push_csv_row<A: Allocator, B: Allocator>(
    text: &mut String<A>,
    ruleset: Ruleset,
    s: &Solution<B>,
) -> Result<(), AllocError>
    ensures { OnOk result (string_bytes text.new ≡ string_bytes text.old ++ csv_line (csv_fields «ruleset» s.now)) }
{
    push_level(text, s.key, s.ticks)?;
    push_lengths(text, s.ticks, move_count(s), s.moves.len())?;
    push_details(text, s.flags, s.start, s.seed, ruleset)
}

/// Lines of comma-separated values, for a file of this ruleset.
#[derive(Clone, Copy)]
pub(crate) struct CsvRows(pub(crate) Ruleset);

impl RowFormat for CsvRows {
    ghost row_text = { λ rows solution. csv_line (csv_fields rows.0 solution) };

    fn push_row<A: Allocator, B: Allocator>(
        &self,
        text: &mut String<A>,
        solution: &Solution<B>,
    ) -> Result<(), AllocError> {
        push_csv_row(text, self.0, solution)
    }
}
