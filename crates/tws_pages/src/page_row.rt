//! A row of a page's table, appended to a text.

ghost use Rattle.std.specs.Prelude.{◌≡◌, ◌++◌, string_bytes, OnOk};
ghost use Rattle.tws_pages.specs.Page.{page_row};
ghost use Rattle.tws_pages.specs.Steps.{level_cells, time_cells, move_cells};

use crate::password::PasswordCell;
use std::alloc::{AllocError, Allocator};
use tws_file::{Key, Solution};
use tws_tables::{RowFormat, Seconds, move_count};

fn push_level_cells<A: Allocator>(text: &mut String<A>, key: Key) -> Result<(), AllocError>
    ensures { OnOk result (string_bytes text.new ≡ string_bytes text.old ++ level_cells key) }
{
    let password = PasswordCell(key.password);
    write!(text, "<tr><td>{}</td><td>{password}</td>", key.number)
}

fn push_time_cells<A: Allocator>(text: &mut String<A>, ticks: u32) -> Result<(), AllocError>
    ensures { OnOk result (string_bytes text.new ≡ string_bytes text.old ++ time_cells ticks) }
{
    let seconds = Seconds(u128::from(ticks));
    write!(text, "<td>{seconds}</td><td>{ticks}</td>")
}

fn push_move_cells<A: Allocator>(
    text: &mut String<A>,
    moves: u64,
    bytes: usize,
) -> Result<(), AllocError>
    ensures { OnOk result (string_bytes text.new ≡ string_bytes text.old ++ move_cells moves bytes) }
{
    writeln!(text, "<td>{moves}</td><td>{bytes}</td></tr>")
}

// Appends the row of a solution.
fn push_page_row<A: Allocator, B: Allocator>(
    text: &mut String<A>,
    s: &Solution<B>,
) -> Result<(), AllocError>
    ensures { OnOk result (string_bytes text.new ≡ string_bytes text.old ++ page_row s.now) }
{
    push_level_cells(text, s.key)?;
    push_time_cells(text, s.ticks)?;
    push_move_cells(text, move_count(s), s.moves.len())
}

/// Rows of a page's table.
#[derive(Clone, Copy)]
pub(crate) struct PageRows;

impl RowFormat for PageRows {
    ghost row_text = { λ _ solution. page_row solution };

    fn push_row<A: Allocator, B: Allocator>(
        &self,
        text: &mut String<A>,
        solution: &Solution<B>,
    ) -> Result<(), AllocError> {
        push_page_row(text, solution)
    }
}
