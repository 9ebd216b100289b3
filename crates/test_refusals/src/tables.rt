//! Listings whose requests for memory are refused.

// A table, and what a test does with it. One function makes the table, since each that owns one takes long to prove.
use crate::blocks::Blocks;
use crate::downloads::{downloads, shares};
use crate::requests::{Kind, open_each};
use crate::table::{keep_with, take_and_read, take_first};
use crate::table_steps::REQUEST;
use crate::uploads::uploads;
use archive_table::Table;
use refusing::{Complaint, Outcome, Refusing, refuse_each};
use std::alloc::{Allocator, Global};
use std::cell::Cell;

// What is done with a new table, and what is counted there.
#[derive(Clone, Copy)]
pub(crate) enum Deed {
    // A file is taken.
    Take,
    // A file is taken and requested. Counts a request that was refused.
    Read,
    // A file is taken and kept. Counts an ERROR `not kept`.
    Keep,
    // Transfers are opened. Notes the number of one that was refused.
    Open(Kind),
    // A file of two blocks is taken, with repetitions.
    Upload,
    // It is taken and downloaded.
    Download,
    // It is taken and downloaded several times at once.
    Share,
}

// Does it with a table that has just been made, which makes no request for memory.
fn perform<A: Allocator + Copy>(
    refusing: &Refusing<Global>,
    table: &mut Table<A>,
    deed: Deed,
    counted: &Cell<u64>,
) -> Outcome {
    if refusing.requests() != 0 {
        return Outcome::Wrong;
    }
    let global = refusing.inner;
    match deed {
        Deed::Take => take_first(global, table),
        Deed::Read => take_and_read(global, table, counted),
        Deed::Keep => keep_with(refusing, table, counted),
        Deed::Open(kind) => open_each(table, kind, counted),
        Deed::Upload => Outcome::of(uploads(refusing, table, &Blocks::new())),
        Deed::Download => Outcome::of(downloads(refusing, table, &Blocks::new())),
        Deed::Share => Outcome::of(shares(refusing, table, &Blocks::new())),
    }
}

// What it comes to with this allocator.
fn outcome_of(refusing: &Refusing<Global>, deed: Deed, counted: &Cell<u64>) -> Outcome {
    let mut table = Table::new(refusing, REQUEST);
    perform(refusing, &mut table, deed, counted)
}

// Whether it comes out right if no request for memory is refused.
pub(crate) fn is_right(global: Global, deed: Deed) -> bool {
    let refusing = Refusing::new(global, 0);
    outcome_of(&refusing, deed, &Cell::new(0)) == Outcome::Right
}

// Does it with each request for memory refused in turn. Returns also what was counted.
pub(crate) fn refuse_each_of(
    global: Global,
    least: u64,
    deed: Deed,
) -> (Result<(), Complaint>, u64) {
    let counted = Cell::new(0);
    let done = refuse_each(
        global,
        least,
        &|refusing: &Refusing<Global>| outcome_of(refusing, deed, &counted),
    );
    (done, counted.get())
}
