//! A table that takes a file without memory.

// The server's table: the block that completes a file, a keeper, and a start, with each allocation refused in turn.
use crate::answers::{goes, has_bytes, has_text, keeps_file, was_kept};
use crate::table_steps::{Asked, REQUEST, ask, is_let_go, open, takes_block};
use crate::tables::{Deed, refuse_each_of};
use archive_keepers::NoKeeper;
use archive_memory::{Kept, MemoryKeeper};
use archive_table::{KeepFault, Keeper, LoadFault, Step, Table, Taken};
use refusing::{Complaint, Outcome, Refusing, refuse_each};
use std::alloc::{AllocError, Allocator, Global};
use std::cell::Cell;
use test_samples::{
    ACK_1, ALICE, BOB, DATA_HUNDRED, EMPTY_LYNX, EMPTY_MS, HUNDRED, NOT_KEPT, OUT_OF_MEMORY,
    RRQ_LYNX,
};
use tws_file::Ruleset;

// Whether this is the file, and came from the client.
fn is_file<A: Allocator>(global: Global, taken: &Taken<A>) -> bool {
    let is_whole = has_bytes(global, &taken.file, HUNDRED);
    is_whole && taken.peer == ALICE
}

// Whether a step takes exactly the file, and acknowledges its block.
fn has_taken<A: Allocator + Copy>(global: Global, step: &Step<A>) -> bool {
    match &step.taken {
        Some(taken) => {
            is_file(global, taken) && !step.closed && goes(&step.out, 4000, ALICE, ACK_1)
        }
        None => false,
    }
}

// What the block that completes a file comes to whose step this is.
fn judge_taken<A: Allocator + Copy>(global: Global, table: &Table<A>, step: &Step<A>) -> Outcome {
    if step.taken.is_none() {
        return Outcome::refused(is_let_go(table, step));
    }
    Outcome::of(has_taken(global, step))
}

// Passes that block to its open transfer.
fn give_file<A: Allocator + Copy>(global: Global, table: &mut Table<A>) -> Outcome {
    let step = table.on_datagram(&mut NoKeeper, 4000, ALICE, DATA_HUNDRED);
    judge_taken(global, table, &step)
}

// Opens a transfer and passes it a file in one block.
fn take<A: Allocator + Copy>(global: Global, table: &mut Table<A>) -> Outcome {
    match open(table) {
        Outcome::Right => give_file(global, table),
        outcome => outcome,
    }
}

// Whether the Lynx collection of a table has this text, and the other collection is empty.
fn has_texts<A: Allocator + Copy>(global: Global, table: &Table<A>, lynx: &[u8]) -> bool {
    has_text(global, table.collection(Ruleset::Lynx), lynx)
        && has_text(global, table.collection(Ruleset::Ms), EMPTY_MS)
}

// The same for a table that has nothing, and then has the file.
pub(crate) fn take_first<A: Allocator + Copy>(global: Global, table: &mut Table<A>) -> Outcome {
    match take(global, table) {
        Outcome::Right => Outcome::of(has_texts(global, table, HUNDRED)),
        outcome => outcome,
    }
}

// The block that completes a file.
#[test]
fn the_last_block(rt: HostRuntime) -> Result<(), Complaint> {
    refuse_each_of(rt.alloc(), 2, Deed::Take).0
}

// Whether a request for the collection, which is the file, is served now, from a new transfer at port 4001.
fn serves<A: Allocator + Copy>(table: &mut Table<A>) -> bool {
    match ask(table, 4001, BOB, RRQ_LYNX, DATA_HUNDRED) {
        Asked::Opened(is_sent) => is_sent && table.live() == 2,
        _ => false,
    }
}

// Whether a request that was refused has changed nothing: no transfer is opened, the other one acknowledges its block
// again, and the request is served when it is made again.
fn is_served_later<A: Allocator + Copy>(global: Global, table: &mut Table<A>) -> bool {
    let (live, is_live) = (table.live(), table.is_live(4001));
    let has_texts = has_texts(global, table, HUNDRED);
    let is_acked = takes_block(table, DATA_HUNDRED, ACK_1, false);
    let is_served = serves(table);
    live == 1 && !is_live && has_texts && is_acked && is_served
}

// Requests the collection, which is the file. Counts a request that is refused.
fn read_file<A: Allocator + Copy>(
    global: Global,
    table: &mut Table<A>,
    refused: &Cell<u64>,
) -> Outcome {
    match ask(table, 4001, BOB, RRQ_LYNX, DATA_HUNDRED) {
        Asked::Opened(is_sent) => {
            let has_texts = has_texts(global, table, HUNDRED);
            Outcome::of(is_sent && has_texts && table.live() == 2)
        }
        Asked::Refused => {
            refused.set(refused.get().saturating_add(1));
            Outcome::refused(is_served_later(global, table))
        }
        Asked::Other => Outcome::Wrong,
    }
}

// The same after the file was taken.
pub(crate) fn take_and_read<A: Allocator + Copy>(
    global: Global,
    table: &mut Table<A>,
    refused: &Cell<u64>,
) -> Outcome {
    match take(global, table) {
        Outcome::Right => read_file(global, table, refused),
        outcome => outcome,
    }
}

// The collection is not empty, so that what is sent to a reader has to be allocated.
#[test]
fn reading_what_was_taken(rt: HostRuntime) {
    let (done, refused) = refuse_each_of(rt.alloc(), 3, Deed::Read);
    assert_eq!(rt; (done, refused >= 1), (Ok(()), true));
}

// Whether a table without transfers has this text.
fn has_alone<A: Allocator + Copy>(global: Global, table: &Table<A>, lynx: &[u8]) -> bool {
    let has_texts = has_texts(global, table, lynx);
    has_texts && table.live() == 0
}

// Whether a server that starts with what the keeper holds has this text.
fn starts_with<A: Allocator + Copy>(
    global: Global,
    keeper: &mut MemoryKeeper<A>,
    lynx: &[u8],
) -> bool {
    match Table::load(global, REQUEST, keeper) {
        Ok(table) => has_alone(global, &table, lynx),
        Err(_fault) => false,
    }
}

// Whether a table and its keeper have the file, and so does a server that starts with what the keeper holds.
fn have_file<A: Allocator + Copy, B: Allocator + Copy>(
    global: Global,
    table: &Table<A>,
    keeper: &mut MemoryKeeper<B>,
) -> bool {
    let has_texts = has_texts(global, table, HUNDRED);
    let is_kept = keeps_file(keeper);
    let is_found = starts_with(global, keeper, HUNDRED);
    has_texts && is_kept && is_found
}

// Whether they have nothing.
fn have_nothing<A: Allocator + Copy, B: Allocator + Copy>(
    global: Global,
    table: &Table<A>,
    keeper: &mut MemoryKeeper<B>,
) -> bool {
    let has_texts = has_texts(global, table, EMPTY_LYNX);
    let is_empty = keeper.kept().is_empty();
    let is_found = starts_with(global, keeper, EMPTY_LYNX);
    has_texts && is_empty && is_found
}

// Whether the last block has closed its transfer, and nothing was taken. Counts an ERROR `not kept`.
fn is_given_up<A: Allocator + Copy>(
    table: &Table<A>,
    step: &Step<A>,
    not_kept: &Cell<u64>,
) -> bool {
    if goes(&step.out, 4000, ALICE, NOT_KEPT) {
        not_kept.set(not_kept.get().saturating_add(1));
    } else if !goes(&step.out, 4000, ALICE, OUT_OF_MEMORY) {
        return false;
    }
    step.closed && table.live() == 0
}

// What the block that completes a file comes to whose step this is. The file is to be kept.
fn judge_kept<A: Allocator + Copy, B: Allocator + Copy>(
    global: Global,
    table: &Table<A>,
    keeper: &mut MemoryKeeper<B>,
    step: &Step<A>,
    not_kept: &Cell<u64>,
) -> Outcome {
    if step.taken.is_some() {
        return Outcome::of(has_taken(global, step) && have_file(global, table, keeper));
    }
    Outcome::refused(is_given_up(table, step, not_kept) && have_nothing(global, table, keeper))
}

// Passes that block to its open transfer.
fn keep_file<A: Allocator + Copy, B: Allocator + Copy>(
    global: Global,
    table: &mut Table<A>,
    keeper: &mut MemoryKeeper<B>,
    not_kept: &Cell<u64>,
) -> Outcome {
    let step = table.on_datagram(keeper, 4000, ALICE, DATA_HUNDRED);
    judge_kept(global, table, keeper, &step, not_kept)
}

// Opens the transfer, and passes the block to it.
fn open_and_keep<A: Allocator + Copy, B: Allocator + Copy>(
    global: Global,
    table: &mut Table<A>,
    keeper: &mut MemoryKeeper<B>,
    not_kept: &Cell<u64>,
) -> Outcome {
    match open(table) {
        Outcome::Right => keep_file(global, table, keeper, not_kept),
        outcome => outcome,
    }
}

// The same with a new keeper.
pub(crate) fn keep_with<A: Allocator + Copy>(
    refusing: &Refusing<Global>,
    table: &mut Table<A>,
    not_kept: &Cell<u64>,
) -> Outcome {
    let mut keeper = MemoryKeeper::new(refusing);
    open_and_keep(refusing.inner, table, &mut keeper, not_kept)
}

// The block that completes a file, with a keeper that has the same allocator: the file is both taken and kept, or
// neither. What a restarted server finds is what was taken.
#[test]
fn the_last_block_kept(rt: HostRuntime) {
    let (done, not_kept) = refuse_each_of(rt.alloc(), 4, Deed::Keep);
    assert_eq!(rt; (done, not_kept >= 2), (Ok(()), true));
}

// Whether a start with what the keeper has fails as out of memory. Counts a failure in the keeper.
fn is_refused(fault: LoadFault, in_keeper: &Cell<u64>) -> bool {
    if fault == LoadFault::Keep(KeepFault::Memory) {
        in_keeper.set(in_keeper.get().saturating_add(1));
        return true;
    }
    fault == LoadFault::Memory
}

// A keeper that has the file.
fn keeper_of_file(global: Global) -> Result<MemoryKeeper, AllocError> {
    let text = Vec::from_slice(global, HUNDRED)?;
    MemoryKeeper::with(global, Some(text), None)
}

// What a start comes to that has made this table of what its keeper has.
fn judge_start<A: Allocator + Copy>(
    global: Global,
    table: &Table<A>,
    keeper: &MemoryKeeper,
) -> Outcome {
    Outcome::of(has_texts(global, table, HUNDRED) && keeps_file(keeper))
}

// What a start comes to that failed so.
fn judge_refused_start(
    global: Global,
    fault: LoadFault,
    keeper: &mut MemoryKeeper,
    in_keeper: &Cell<u64>,
) -> Outcome {
    let is_refused = is_refused(fault, in_keeper);
    let keeps_file = keeps_file(keeper);
    let is_found = starts_with(global, keeper, HUNDRED);
    Outcome::refused(is_refused && keeps_file && is_found)
}

// A start with what a keeper has, which is the file.
fn start(refusing: &Refusing<Global>, keeper: &mut MemoryKeeper, in_keeper: &Cell<u64>) -> Outcome {
    match Table::load(refusing, REQUEST, keeper) {
        Ok(table) => judge_start(refusing.inner, &table, keeper),
        Err(fault) => judge_refused_start(refusing.inner, fault, keeper, in_keeper),
    }
}

fn load_one(refusing: &Refusing<Global>, in_keeper: &Cell<u64>) -> Outcome {
    match keeper_of_file(refusing.inner) {
        Ok(mut keeper) => start(refusing, &mut keeper, in_keeper),
        Err(_fault) => Outcome::Wrong,
    }
}

// A start with one file, which the keeper copies before it is read.
#[test]
fn starting(rt: HostRuntime) {
    let in_keeper = Cell::new(0);
    let done = refuse_each(
        rt.alloc(),
        2,
        &|refusing: &Refusing<Global>| load_one(refusing, &in_keeper),
    );
    assert_eq!(rt; (done, in_keeper.get()), (Ok(()), 1));
}

// Whether these are the file for Lynx and the text of an empty collection for MS.
fn are_both<A: Allocator>(kept: &[Kept<A>]) -> bool {
    match kept {
        [lynx, ms] => {
            was_kept(lynx, Ruleset::Lynx, HUNDRED) && was_kept(ms, Ruleset::Ms, EMPTY_MS)
        }
        _ => false,
    }
}

// A keeper that has them.
fn keeper_of_both<A: Allocator + Copy>(alloc: A) -> Result<MemoryKeeper<A>, AllocError> {
    let lynx = Vec::from_slice(alloc, HUNDRED)?;
    let ms = Vec::from_slice(alloc, EMPTY_MS)?;
    MemoryKeeper::with(alloc, Some(lynx), Some(ms))
}

fn make_keeper(refusing: &Refusing<Global>) -> Outcome {
    match keeper_of_both(refusing) {
        Ok(keeper) => Outcome::of(are_both(keeper.kept()) && keeper.failures() == 0),
        Err(_fault) => Outcome::OutOfMemory,
    }
}

// Two texts, and the list of them.
#[test]
fn a_keeper_with_texts(rt: HostRuntime) -> Result<(), Complaint> {
    refuse_each(rt.alloc(), 3, &make_keeper)
}
